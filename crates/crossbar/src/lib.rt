//! The crossbar of an IMS C004 link switch: 32 inputs, 32 outputs, and for each output a word that
//! says which input drives it. Calls name outputs by the virtual numbers of a domain, and inputs by
//! their physical ports. Contracts see what the words say as a switch: a set of pairs (output, input)
//! and a set of ready outputs. With its inputs by virtual numbers too it is the domain's private switch.
#![tactic(auto)]

pub mod laws;
mod numbering;
mod operations;
mod outputs;
mod plain;
mod range;
mod word;

pub use numbering::Numbering;
pub use operations::{clear, connect, disconnect, driven_by, enquire, is_ready, make_ready};
pub use outputs::Outputs;
pub use plain::PlainOutputs;
pub use range::{MOST_RANGES, PORTS, PortRange};
pub use word::{Connection, Word};
