//! How the records of a farm that stays up are kept: what a domain's journal gained is written to its record.
#![tactic(auto)]

mod domain_record;
mod record;
mod store;

pub use domain_record::DomainRecord;
pub use record::PIECE;
pub use store::{NotKept, RecordStore};
