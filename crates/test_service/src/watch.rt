//! What an operator may see of the outputs.
ghost use Rattle.std.specs.Prelude.{◌≡◌, ◌<◌};
ghost use Rattle.farm_service.specs.Services.{IsItsOperator};

use crossbar::Word;
use farm_service::Service;
use plan_rules::AcceptedPlan;
use std::sync::atomic::{AtomicBool, Ordering};
use std::thread;
use switch_table::OperatorSeat;

/// The newest word that was seen of each output, and how many were seen that are not allowed.
#[derive(Clone, Copy)]
pub struct Watch {
    /// The domain of each output.
    owners: [Option<u8>; 32],
    /// By their physical outputs.
    pub words: [Word; 32],
    /// Words that are not allowed.
    pub wrong: u64,
}

// The domain of each physical output.
fn owners_of(plan: &AcceptedPlan) -> [Option<u8>; 32] {
    let mut owners = [None; 32];
    for domain in 0..plan.domains() {
        for range in plan.ranges(domain) {
            if let Some(range) = range {
                for port in range.first..=range.last {
                    if port < 32 {
                        owners[usize::from(port)] = Some(domain);
                    }
                }
            }
        }
    }
    owners
}

impl Watch {
    /// Nothing was seen of a plan's outputs.
    pub fn of(plan: &AcceptedPlan) -> Watch {
        Watch {
            owners: owners_of(plan),
            words: [Word::UNUSED; 32],
            wrong: 0,
        }
    }

    /// The greatest change count that was seen.
    pub fn changes(&self) -> u64 {
        let mut newest = 0;
        for word in self.words {
            newest = newest.max(word.changes());
        }
        newest
    }

    // Whether a word may be seen of an output: with an input of the output's own domain where it is connected, and unused
    // where the output is no domain's.
    fn is_confined(&self, output: u8, word: Word) -> bool
        requires { output < 32 }
    {
        let owner = self.owners[usize::from(output)];
        match word.connection() {
            Some(connection) => {
                owner.is_some() && self.owners.get(usize::from(connection.input)) == Some(&owner)
            }
            None => owner.is_some() || word == Word::UNUSED,
        }
    }

    // Notes a word of an output: the same as before or one with more changes, and confined.
    fn remember(&mut self, output: u8, word: Word)
        requires { output < 32 }
    {
        let before = self.words[usize::from(output)];
        let is_newer = word == before || before.changes() < word.changes();
        if !(is_newer && self.is_confined(output, word)) {
            self.wrong = self.wrong.saturating_add(1);
        }
        self.words[usize::from(output)] = word;
    }
}

/// How often all outputs are surveyed at most.
const SURVEYS: u64 = 1_000_000;

/// Surveys all outputs again and again until all is over, and then once more.
pub fn survey_all(
    service: &Service,
    mut operator: OperatorSeat,
    mut seen: Watch,
    over: &AtomicBool,
) -> (OperatorSeat, Watch)
    requires { IsItsOperator service.now operator }
    ensures { IsItsOperator service.now result.0 }
{
    for _survey in 0..SURVEYS {
        let is_last = over.load(Ordering::SeqCst);
        for output in 0..32 {
            let word = service.survey(&mut operator, output);
            seen.remember(output, word);
        }
        if is_last {
            break;
        }
        thread::yield_now();
    }
    (operator, seen)
}
