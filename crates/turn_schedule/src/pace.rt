//! How many quanta a burst has.
//!
//! What a burst costs besides its Steps is the same however many they are: two holds of a lock, and copies of a node. So
//! bursts become longer as long as nothing moves, and are of one quantum again as soon as a packet moved.
ghost use Rattle.std.specs.Prelude.{◌≤◌};

/// The most quanta of a burst.
const MOST_QUANTA: u64 = 256;

/// The most Steps of a burst.
pub(crate) const BURST_STEPS: u64 = 65_536;

/// How many Steps the bursts of a worker's turns have.
#[derive(Clone, Copy)]
pub struct BurstLength {
    /// The Steps of one quantum, at least one.
    pub quantum: u64,
    /// Whether a burst may have more quanta than one.
    pub may_grow: bool,
}

/// How many quanta come after `quanta`, as long as nothing moves: twice as many, unless that is too long for a burst.
pub(crate) fn longer(quanta: u64, quantum: u64) -> u64 {
    let twice = quanta.saturating_mul(2);
    if twice <= MOST_QUANTA && twice.saturating_mul(quantum) <= BURST_STEPS {
        twice
    } else {
        quanta
    }
}

/// What became of a round.
#[derive(Clone, Copy)]
pub struct RoundOutcome {
    /// Whether a packet moved at its end.
    pub moved: bool,
    /// Whether nothing is left to be done.
    pub is_quiet: bool,
    /// As how many rounds of one quantum it counts, at least one.
    pub rounds: u64,
    /// Whether the journal had no room for a burst of several quanta.
    pub was_shortened: bool,
}

/// How the rounds of a settling go on.
#[derive(Clone, Copy)]
pub struct Pace {
    // How many quanta the bursts of the next round have.
    quanta: u64,
    // How many rounds of one quantum are left.
    left: u64,
    // Whether bursts may become longer.
    may_grow: bool,
    // How often others had changed the domain at the end of the last round.
    changes: u64,
}

impl Pace {
    /// The pace at the beginning of `rounds` rounds, after `changes` changes of the domain by others.
    pub fn of(rounds: u64, changes: u64) -> Pace {
        Pace {
            quanta: 1,
            left: rounds,
            may_grow: true,
            changes,
        }
    }

    /// Whether no round is left.
    pub fn is_over(self) -> bool {
        self.left == 0
    }

    /// How many quanta the bursts of the next round have: no more than there are rounds left, 256 at most, and at least one.
    pub fn quanta(self) -> u64
        ensures { 1 ≤ result }
    {
        self.quanta.min(self.left).max(1)
    }

    /// The pace after a round, by quanta of `quantum` Steps each, and after `changes` changes of the domain by others.
    /// Bursts no longer grow once the journal had no room for one.
    pub fn after(self, round: RoundOutcome, changes: u64, quantum: u64) -> Pace {
        let may_grow = self.may_grow && !round.was_shortened;
        let quanta = if round.moved || changes != self.changes || !may_grow {
            1
        } else {
            longer(self.quanta, quantum)
        };
        Pace {
            quanta,
            left: self.left.saturating_sub(round.rounds),
            may_grow,
            changes,
        }
    }
}
