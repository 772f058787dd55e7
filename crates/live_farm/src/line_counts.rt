//! How many lines were read of each user.
ghost use Rattle.std.specs.Prelude.{◌≡◌, ◌+◌, IfOk, replicate, vec_len};

use domain_core::NoMemory;
use std::alloc::Global;

/// How many lines were read, and how many of them of each user and, after these, of the operator.
pub(crate) struct LineCounts {
    pub(crate) users: usize,
    pub(crate) counts: Vec<u64>,
    pub(crate) all: u64,
    ghost places: { vec_len counts ≡ users + 1 },
}

// Dropped by hand, since a derived `Drop` makes callers prove the drop of each field.
impl Drop for LineCounts {
    fn drop(self) {
        let LineCounts {
            users: _,
            counts: _,
            all: _,
        } = self;
    }
}

impl LineCounts {
    /// None yet, of that many users.
    pub(crate) fn new(alloc: Global, users: usize) -> Result<LineCounts, NoMemory>
        ensures none { IfOk result (λ it. (it.counts.items ≡ replicate (users + 1) 0) × (it.all ≡ 0)) }
        ensures users { IfOk result (λ it. it.users ≡ users) }
    {
        let Some(places) = users.checked_add(1) else {
            return Err(NoMemory);
        };
        Ok(LineCounts {
            users,
            counts: Vec::from_elem(alloc, 0, places)?,
            all: 0,
        })
    }
}
