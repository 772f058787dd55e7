//! Whether processes that run at the same time keep to what PAR allows them.
#![tactic(auto)]

mod clash;
mod finding;
mod gathering;
mod laws;
mod marks;
mod number_set;
mod subscripts;
mod usage;

pub use clash::{Clash, ClashSubject};
pub use finding::find_clash;
pub use laws::{apart_uses_share_nothing, value_is_of_what_is_read};
pub use usage::{Usage, UsageWay};
