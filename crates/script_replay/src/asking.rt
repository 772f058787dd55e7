//! What a user's line asks of the user's domain, on a farm on one thread.
ghost use Rattle.std.specs.Prelude.{◌≡◌, [], true, IfOk};
ghost use Rattle.line_answers.specs.Asks.{read_replies};
ghost use Rattle.script_replay.specs.Lines.{AsksOn, AsksWhole, HasStopped};

use crate::asks::UserLine;
use crate::next::{is_peek, is_read, next_event};
use domain_core::{AnsweredCommand, By, Refusal};
use farm_replay::{AskFault, OpenFarm};
use line_answers::ROUNDS;
use step_meter::{OutOfSteps, StepMeter};
use whole_farm::laws::runs_add_up;

/// How many Steps a node does at a time while a domain settles, as in the program unless an option says otherwise.
pub(crate) const QUANTUM: u64 = 256;

// Asks what a line asks after the events that were answered, up to its end or, if `stops_to_read`, up to its first read. Each
// event is listed with its reply. The first refusal ends it.
#[tactic(auto, using(crate::proofs::Exchanges::asks_nothing, crate::proofs::Exchanges::asks_still, crate::proofs::Exchanges::stops_at_end, crate::proofs::Exchanges::before_reads, crate::proofs::Exchanges::stops_refused))]
fn ask_on(
    farm: &mut OpenFarm,
    line: &UserLine<'_>,
    stops_to_read: bool,
    told: &mut Vec<AnsweredCommand>,
) -> Result<(), Refusal>
    ensures asked { AsksOn line.now told.old.items told.new.items farm.old.farm farm.new.farm }
    ensures ended { HasStopped stops_to_read line.now told.new.items farm.new.farm result }
    ensures unread { stops_to_read ≡ true → read_replies told.old.items ≡ [] → read_replies told.new.items ≡ [] }
{
    // A run of calls and then of others is the run of all.
    runs_add_up();
    // No line asks that many events: the bound shows that the loop ends.
    for _ in 0..u64::MAX {
        let Some(event) = next_event(&line.command, told.as_slice()) else {
            return Ok(());
        };
        if stops_to_read && is_read(event) {
            return Ok(());
        }
        told.reserve(1)?;
        let reply = farm.ask(line.domain, By::User(line.user), event)?;
        told.push_reserved(AnsweredCommand { event, reply });
    }
    Err(Refusal::NoMemory)
}

/// Asks what a line asks, and lists each event with its reply. A peek lets its domain settle before it reads. The first
/// refusal ends the line, and what was done before it stays done. A peek ends too if its domain can't settle because the
/// journal is full or has no room for a quantum of Steps of a node, or because memory runs out.
///
/// # Errors
///
/// `OutOfSteps` if a peek's domain wants more Steps than the meter allows.
#[tactic(auto, using(crate::proofs::Exchanges::one_part_ended, crate::proofs::Exchanges::peeks_refused, crate::proofs::Exchanges::peeks_full, crate::proofs::Exchanges::peeks_out_of_memory))]
pub(crate) fn ask_line<M: StepMeter>(
    farm: &mut OpenFarm,
    line: &UserLine<'_>,
    told: &mut Vec<AnsweredCommand>,
    meter: &mut M,
) -> Result<Result<(), Refusal>, OutOfSteps>
    requires { told.old.items ≡ [] }
    ensures { IfOk result (λ ended. AsksWhole line.now told.new.items farm.old.farm farm.new.farm ended) }
{
    if !is_peek(&line.command) {
        return Ok(ask_on(farm, line, false, told));
    }
    if let Err(refusal) = ask_on(farm, line, true, told) {
        return Ok(Err(refusal));
    }
    match farm.settle(line.domain, QUANTUM, ROUNDS, meter) {
        // If there is no such domain, the farm refuses what the line asks next.
        Ok(_) | Err(AskFault::Refused(Refusal::NoSuch)) => Ok(ask_on(farm, line, false, told)),
        Err(AskFault::Refused(Refusal::JournalFull)) => Ok(Err(Refusal::JournalFull)),
        Err(AskFault::Refused(Refusal::NoMemory)) => Ok(Err(Refusal::NoMemory)),
        Err(AskFault::Steps(end)) => Err(end),
    }
}
