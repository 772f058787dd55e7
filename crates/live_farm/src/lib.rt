//! A farm that stays up: lines in as they come, an answer for each as soon as it is there.
#![tactic(auto)]

mod answering;
mod asked;
mod causes;
mod counting;
mod dispatcher;
mod failure;
mod farm_users;
mod fate;
mod group;
mod joining;
mod line_counts;
mod mailbox;
mod operator;
mod outlet;
mod outputs;
mod program;
mod queued;
mod record;
mod replay;
mod room;
mod sending;
mod station;
mod texts;
mod threads;

pub use answering::QueuedAnswer;
pub use asked::AskedCommands;
pub use dispatcher::Dispatcher;
pub use failure::{LiveFailure, LiveStop};
pub use farm_users::FarmUsers;
pub use fate::{LineFate, fate_of};
pub use group::UserGroup;
pub use mailbox::{MOST_WAITING, Mail, Mailbox, Sent};
pub use operator::Operator;
pub use outlet::{Outlet, SharedOutlet};
pub use outputs::LiveOutputs;
pub use program::run_live;
pub use queued::{QueuedLine, QueuedRequest};
pub use record::{NoRecord, RecordSizes, RecordState, SharedRecord, no_records};
pub use replay::{NoReplay, Replay, StoreReplay, no_replays};
pub use sending::LineSender;
pub use station::{DomainBounds, Station, serve};
pub use texts::{LiveAnswer, NotDone, error_answer};
