//! The farm for several users in threads: a lock for each domain, over one switch table, a queue of
//! the right to step a node, and a schedule of bursts.
#![tactic(auto)]

mod askers;
mod bounds;
mod closed;
mod closing;
mod commands;
mod copying;
mod entering;
mod halves;
mod histories;
mod limits;
mod lists;
mod locking;
mod moves;
mod opening;
mod pacing;
mod pass;
mod restarting;
mod resting;
mod room;
mod seated_domains;
mod service;
mod session;
mod status;
mod threads;
mod turns;
mod waiting;
mod worker;

pub use closed::{Closed, ClosedDomain, NotClosed};
pub use commands::is_command;
pub use domain_core::{Committed, Refusal, Ticket};
pub use entering::History;
pub use opening::Opened;
pub use pass::UserPass;
pub use resting::RestCause;
pub use room::Room;
pub use service::{SeatedDomain, Service};
pub use session::{Session, Settled};
pub use status::{DomainStatus, RoomStatus};
pub use std::alloc::AllocError as NoMemory;
pub use switch_table::OperatorSeat;
pub use threads::{note_cores, run_users_and_workers, work_all};
pub use token_queue::{Token, WorkerPass};
pub use waiting::block_forever;
pub use worker::{Gate, NoGate, UNTIL_STOPPED, Worked, work};
