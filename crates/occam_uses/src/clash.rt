//! What two processes use at the same time, and must not.
use crate::usage::{Usage, UsageWay};

/// Two uses that clash, in the order of the text.
#[derive(Clone, Copy)]
pub struct Clash {
    pub earlier: Usage,
    pub later: Usage,
}

/// What two processes use.
#[derive(Clone, Copy)]
pub enum ClashSubject {
    /// The variable of this number, which may be one of the words of an array.
    Variable(u32),
    /// The link's channel of this number.
    Link(u8),
    /// The channel that the variable of this number is.
    Inside(u32),
}

impl Clash {
    /// What both use. If that is more than one variable or channel, it is the first of them.
    pub fn subject(self) -> ClashSubject {
        let number = self.earlier.first.max(self.later.first);
        match self.later.way {
            UsageWay::Changes | UsageWay::Reads => ClashSubject::Variable(narrow(number / 4)),
            UsageWay::Sends | UsageWay::Receives => match u8::try_from(number) {
                Ok(link) => ClashSubject::Link(link),
                Err(_) => ClashSubject::Inside(narrow(number.saturating_sub(256))),
            },
        }
    }

    /// Whether it is known while compiling what both use: not if one of them uses an element of an array whose subscript
    /// isn't known.
    pub fn is_known(self) -> bool {
        self.earlier.is_known && self.later.is_known
    }
}

// The number of a variable: that of the last, if there is none of this number.
fn narrow(number: u64) -> u32 {
    u32::try_from(number).unwrap_or(u32::MAX)
}
