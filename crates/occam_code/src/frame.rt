//! Where the words of the frame are.
ghost use Rattle.std.specs.Prelude.{◌≡◌};
ghost use Rattle.occam_code.specs.Expressions.{after_one as words_after_one};

/// Where the words of a program's frame are, from the workspace of a process. All processes of a program share one frame,
/// which has its variables and what is kept for later.
#[derive(Clone, Copy)]
pub struct FrameWords {
    /// The word of variable 0. Those of the others follow, modulo 2^32.
    pub base: u32,
    /// The first word that is free, which is after those of all variables.
    pub temporary: u32,
}

// The words after one that is kept.
pub(crate) fn after_one(words: FrameWords) -> FrameWords
    ensures { result ≡ words_after_one words }
{
    FrameWords {
        temporary: words.temporary.wrapping_add(1),
        ..words
    }
}
