//! The command line of the lab: its subcommands and their arguments, what the words ask, and why no answer comes.
#![tactic(auto)]

mod arguments;
mod command_line;
mod failure;
mod files;
mod meter;
mod report;
mod request;
mod subcommand;

pub use command_line::{CommandLine, USUAL_STEPS, command_words, read_command_line};
pub use failure::{
    ArgumentFault, LabFailure, NO_MEMORY, NOT_READ, REFUSED_PLAN, WRONG_TEXT, WRONG_WORDS,
};
pub use files::{read_file, readable_bytes};
pub use meter::TerminalMeter;
pub use report::{Report, end_with, print_answers};
pub use request::{
    AssemblyOptions, BootOptions, BootedCode, Debugging, Explaining, LabRequest, NodeRequest,
    OccamForm, OccamRequest, RowFiles, ScriptUse, Showing, TracedScript,
};
