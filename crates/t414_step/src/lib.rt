//! One step of a T414: its registers, the instruction table and the dispatch on an instruction byte. There is no
//! condition on memory or on the registers: every program has its answers, whatever it destroys.
#![tactic(auto)]

mod arithmetic;
mod bits;
mod channels;
mod control;
mod cpu;
mod direct;
mod dispatch;
mod flags;
mod instruction_laws;
mod laws;
mod long;
mod next;
mod processes;
mod running;
mod stepping;
mod storage;

pub use crate::cpu::Cpu;
pub use crate::instruction_laws::instructions_are_steps;
pub use crate::laws::{great_count_is_the_most, idle_where_it_rests, move_stops_at_the_edge};
pub use crate::running::run;
pub use crate::stepping::{Stepped, step};
