//! How much memory a domain may take for its journal and for the lists of its users.
ghost use Rattle.std.specs.Prelude.{◌≡◌, ◌↔◌, ◌==◌, ◌-◌, ◌^◌, IsTrue, not};
ghost use Rattle.farm_service.specs.Rooms.{IsUsedUp, reserved_entries};

use domain_core::ENTRY_BYTES;

/// How much memory a domain may take for its journal and for the lists of its users, in bytes.
#[derive(Clone, Copy)]
pub struct Room {
    bytes: u64,
}

impl Room {
    /// As much as the system gives.
    pub fn without_bound() -> Room
        ensures { reserved_entries result ≡ 0 }
    {
        Room { bytes: u64::MAX }
    }

    /// A room of `bytes` bytes.
    pub fn of(bytes: u64) -> Room
        ensures { result.bytes ≡ bytes }
    {
        Room { bytes }
    }

    /// How many bytes there are.
    pub fn bytes(self) -> u64
        ensures { result ≡ self.bytes }
    {
        self.bytes
    }

    /// Whether there is a bound.
    pub fn is_bounded(self) -> bool
        ensures { result ≡ not (self.bytes == 2 ^ 64 - 1) }
    {
        self.bytes != u64::MAX
    }

    /// How many entries of a journal there may be, for which memory is reserved when the domain is opened.
    pub fn entries(self) -> usize
        ensures { result ≡ reserved_entries self }
    {
        if self.is_bounded() {
            (self.bytes / ENTRY_BYTES) as usize
        } else {
            0
        }
    }

    /// Whether nodes and packets rest if that many bytes of the room are taken. A quarter is kept for the commands of users.
    pub fn is_used_up(self, taken: u64) -> bool
        ensures { IsTrue result ↔ IsUsedUp self taken }
    {
        taken >= self.bytes - self.bytes / 4
    }
}
