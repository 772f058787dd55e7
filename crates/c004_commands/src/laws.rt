//! Laws of the command stream.
ghost use Rattle.c004_commands.specs.Grammar.{NoSpellingBeginsAnother, EachSplits, SplitsOnce, ReadsItems, RestIsNoItem};

/// The command stream law: each list of bytes is items, one after another, and a rest, in exactly
/// one way, and no spelling begins another. It does nothing when it runs.
pub fn one_split()
    ensures some { EachSplits }
    ensures one { SplitsOnce }
    ensures items { ReadsItems }
    ensures rest { RestIsNoItem }
    ensures apart { NoSpellingBeginsAnother }
{}
