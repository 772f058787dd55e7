//! The script program over a farm of T414 processors on a C004 link switch: words of the command
//! line, a plan and a script in, one line of output for each script line out.
#![tactic(auto)]

mod answering;
mod farm;
mod program;
mod threads;
mod users;

pub use farm_cli::{Settings, settings};
pub use program::run;
pub use script_text::{HexFault, bytes_of};
