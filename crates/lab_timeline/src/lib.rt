//! A record of a domain at any of its moments, forwards and back.
#![tactic(auto)]

mod timeline;

pub use timeline::Timeline;
