//! Records in files: the folder of a farm's records, what is done again when a farm goes on, and what is written to.
#![tactic(auto)]

mod failure;
mod finding;
mod meter;
mod names;
mod notices;
mod opening;
mod progress;
mod record_file;
mod record_folder;
mod redoing;
mod replay;

pub use failure::FileFailure;
pub use meter::ReplayMeter;
pub use names::names_of;
pub use notices::Notices;
pub use record_file::{FileRecords, RecordFile};
pub use record_folder::RecordFolder;
pub use replay::{FileReplay, ReplayOutputs};
