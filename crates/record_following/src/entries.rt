//! A domain is led to a moment by the entries of its journal.

ghost use Rattle.std.specs.Prelude.{◌≡◌, ◌<◌, ◌∷◌, [], OnOk, take, replicate};
ghost use Rattle.record_following.specs.Following.{entry_calls, calls_before, MovesOn};

use crate::fault::FollowFault;
use crate::following::ReplayedDomain;
use domain_core::laws::journals_add_up;
use domain_core::{By, Entry, Event, Reply};
use t414_step::Stepped;

// The entry for the first `most` events of this entry.
#[tactic(auto, using(crate::proofs::EntryCalls::one_whole, crate::proofs::EntryCalls::run_cut, crate::proofs::EntryCalls::run_whole))]
fn beginning(entry: Entry, most: u64) -> Entry
    requires { 0 < most }
    ensures { entry_calls (result ∷ []) ≡ take most (entry_calls (entry ∷ [])) }
{
    match entry {
        Entry::One { .. } => entry,
        Entry::Run {
            by,
            node,
            count,
            last: _,
        } => {
            if most < count {
                Entry::Run {
                    by,
                    node,
                    count: most,
                    last: Stepped::Ran,
                }
            } else {
                entry
            }
        }
    }
}

impl ReplayedDomain {
    // Does one event, which was answered so.
    fn apply_with_reply(&mut self, by: By, event: Event, reply: Reply) -> Result<(), FollowFault>
        ensures { OnOk result (MovesOn self.old (record { by = by; event = event } ∷ []) self.new) }
    {
        if self.apply_event(by, event)?.reply == reply {
            Ok(())
        } else {
            Err(FollowFault::Differs)
        }
    }

    // Does `count` Steps of a node, which all ran. `NoEvent` if a user asked for them: only the farm steps.
    #[tactic(auto, using(crate::proofs::EntryCalls::stays_by))]
    fn apply_ran_steps(&mut self, by: By, node: u8, count: u64) -> Result<(), FollowFault>
        ensures { OnOk result (MovesOn self.old (replicate count (record { by = by; event = Event.Step node })) self.new) }
    {
        if count == 0 {
            return Ok(());
        }
        match by {
            By::Farm => {
                self.apply_steps(node, count)?;
                Ok(())
            }
            By::User(_) => Err(FollowFault::NoEvent),
        }
    }

    // Does `count` Steps of a node: the last one came to `last`, and those before it ran.
    #[tactic(auto, using(crate::proofs::EntryCalls::stays_by))]
    fn apply_run(&mut self, by: By, node: u8, count: u64, last: Stepped) -> Result<(), FollowFault>
        ensures { OnOk result (MovesOn self.old (replicate count (record { by = by; event = Event.Step node })) self.new) }
    {
        if last == Stepped::Ran {
            return self.apply_ran_steps(by, node, count);
        }
        let Some(before) = count.checked_sub(1) else {
            return Ok(());
        };
        self.apply_ran_steps(by, node, before)?;
        self.apply_with_reply(by, Event::Step(node), Reply::Stepped(last))
    }

    // Does what an entry stands for.
    fn apply_entry(&mut self, entry: Entry) -> Result<(), FollowFault>
        ensures { OnOk result (MovesOn self.old (entry_calls (entry ∷ [])) self.new) }
    {
        match entry {
            Entry::One { by, event, reply } => self.apply_with_reply(by, event, reply),
            Entry::Run {
                by,
                node,
                count,
                last,
            } => self.apply_run(by, node, count, last),
        }
    }

    // Does what an entry stands for, until `most` events are recorded.
    #[tactic(auto, using(crate::proofs::EntryCalls::none_before, crate::proofs::EntryCalls::moves_before))]
    fn apply_entry_before(&mut self, entry: Entry, most: u64) -> Result<(), FollowFault>
        ensures { OnOk result (MovesOn self.old (calls_before most self.old (entry_calls (entry ∷ []))) self.new) }
    {
        let left = most.saturating_sub(self.recorded_events());
        if left == 0 {
            return Ok(());
        }
        self.apply_entry(beginning(entry, left))
    }

    /// Does what the next entries of the domain's journal stand for, until `most` events are recorded, and compares what the
    /// domain answers with what they say. After an error nothing is guaranteed about the moment.
    pub fn apply_entries(&mut self, entries: &[Entry], most: u64) -> Result<(), FollowFault>
        ensures { OnOk result (MovesOn self.old (calls_before most self.old (entry_calls entries.now)) self.new) }
    {
        // Entries stand for what the one and then the others stand for.
        journals_add_up();
        for entry in entries {
            self.apply_entry_before(*entry, most)?;
        }
        Ok(())
    }
}
