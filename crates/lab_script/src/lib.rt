//! Shorthand lines in a script, and the plain lines into which they are spelled out.
#![tactic(auto)]

mod expanding;
mod form;
mod loading;
mod spelling;

pub use expanding::{Expanded, LoadedFile, expand, expanded_line, file_loaded, files_named};
pub use form::is_shorthand_line;
pub use loading::is_occam_file;
