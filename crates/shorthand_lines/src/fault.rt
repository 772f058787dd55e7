//! Why a shorthand line asks nothing.
ghost use Rattle.std.specs.Prelude.{◌≡◌};
ghost use Rattle.shorthand_lines.specs.declared.fault.ShorthandFault.TheVariants.{NoMemory};

use std::alloc::AllocError;

/// Why the words after a shorthand verb ask nothing.
#[derive(Clone, Copy)]
pub enum ShorthandFault {
    /// There are too few of them.
    TooFewWords,
    /// There are too many.
    TooManyWords,
    /// The first of `join` is no port's number.
    FirstPort,
    /// The second of `join` is no port's number.
    SecondPort,
    /// The first of `send` or `text` is no host's number.
    Host,
    /// What comes after the host's number of `send` is no text in quotes that means a byte at least.
    Text,
    /// They may ask something, and there is no memory for it.
    NoMemory,
}

impl From<AllocError> for ShorthandFault {
    ghost from_gives = { λ _ fault. fault ≡ NoMemory };

    fn from(_error: AllocError) -> ShorthandFault {
        ShorthandFault::NoMemory
    }
}
