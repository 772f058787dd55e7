//! The shorthand lines, which ask what plain lines ask: `join`, `send` and `text`. A fourth, `load`, needs a file; it has its
//! name here, and is read elsewhere.
#![tactic(auto)]

mod fault;
mod parsing;
mod quoted;
mod verb;

pub use fault::ShorthandFault;
pub use parsing::parse_shorthand;
pub use verb::{LOAD, SHORTHAND_NAMES, ShorthandVerb};
