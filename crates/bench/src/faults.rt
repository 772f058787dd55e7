//! Faults and refusals as errors of the program.

use domain_core::Refusal;
use plan_rules::PlanFault;
use std::io;

/// A plan, a table or a domain that could not be had.
pub fn error_of_fault(fault: PlanFault) -> io::Error {
    match fault {
        PlanFault::NoMemory => io::Error::from(io::ErrorKind::OutOfMemory),
        _ => io::Error::from(io::ErrorKind::InvalidData),
    }
}

/// An event that was refused.
pub fn error_of_refusal(refusal: Refusal) -> io::Error {
    match refusal {
        Refusal::NoMemory => io::Error::from(io::ErrorKind::OutOfMemory),
        _ => io::Error::from(io::ErrorKind::InvalidData),
    }
}
