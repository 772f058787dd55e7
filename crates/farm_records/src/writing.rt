//! What is written of a domain's answers.
ghost use Rattle.std.specs.Prelude.{◌≡◌, ◌++◌, ◌<◌, OnOk, string_bytes};
ghost use Rattle.std.specs.Fmt.{decimal};
ghost use Rattle.farm_records.specs.RecordText.{RecordLine, if_several, record_line_text, record_text, entry_lines, lines_of, ran_lines, run_lines};

use answer_text::write_reply;
use domain_core::{By, Entry, Event, NoMemory, Reply};
use event_text::{write_event, write_user};
use t414_step::Stepped;

// Appends a number and the text after it, if the number is more than one.
fn write_if_several(text: &mut String, times: u64, behind: &str) -> Result<(), NoMemory>
    ensures text { OnOk result (string_bytes text.new ≡ string_bytes text.old ++ if_several times (decimal times ++ behind.now)) }
{
    if times < 2 {
        return Ok(());
    }
    write!(text, "{times}")?;
    text.push_str(behind)
}

/// Appends a line: a call that was made `times` times, and answered alike each time.
pub(crate) fn write_line(
    text: &mut String,
    times: u64,
    by: By,
    event: Event,
    reply: Reply,
) -> Result<(), NoMemory>
    ensures text { OnOk result (string_bytes text.new ≡ string_bytes text.old
        ++ record_line_text (record { times = times; answered = record { call = record { by = by; event = event }; reply = reply } })) }
{
    write_if_several(text, times, " times ")?;
    text.push_str("0 ")?;
    write_event(text, event)?;
    text.push_str(" ")?;
    write_user(text, by)?;
    text.push_str(" = ")?;
    write_if_several(text, times, " ")?;
    write_reply(text, reply)?;
    text.push_str("\n")
}

// Appends the line of Steps that all ran, if there are any.
fn write_ran(text: &mut String, by: By, node: u8, count: u64) -> Result<(), NoMemory>
    ensures text { OnOk result (string_bytes text.new ≡ string_bytes text.old ++ record_text (ran_lines by node count)) }
{
    if count == 0 {
        return Ok(());
    }
    write_line(
        text,
        count,
        by,
        Event::Step(node),
        Reply::Stepped(Stepped::Ran),
    )
}

// Appends the lines of `count` Steps of a node: the last one came to `last`, and those before it ran.
#[tactic(auto, using(crate::proofs::Lines::ended_run_text))]
fn write_run(text: &mut String, by: By, node: u8, count: u64, last: Stepped) -> Result<(), NoMemory>
    ensures text { OnOk result (string_bytes text.new ≡ string_bytes text.old ++ record_text (run_lines by node count last)) }
{
    match last {
        Stepped::Ran => write_ran(text, by, node, count),
        Stepped::Idle | Stepped::Fault(_) => match count.checked_sub(1) {
            Some(more) => {
                write_ran(text, by, node, more)?;
                write_line(text, 1, by, Event::Step(node), Reply::Stepped(last))
            }
            None => Ok(()),
        },
    }
}

// Appends the lines of an entry of a journal. The Steps of one entry are one line, or two if the last didn't run as the others
// did.
fn write_record_of(text: &mut String, entry: Entry) -> Result<(), NoMemory>
    ensures text { OnOk result (string_bytes text.new ≡ string_bytes text.old ++ record_text (entry_lines entry)) }
{
    match entry {
        Entry::One { by, event, reply } => write_line(text, 1, by, event, reply),
        Entry::Run {
            by,
            node,
            count,
            last,
        } => write_run(text, by, node, count, last),
    }
}

/// Appends the lines of entries of a journal, one after another.
///
/// # Errors
///
/// `NoMemory` if the text can't grow. Then nothing is said of it.
pub fn write_records_of(text: &mut String, entries: &[Entry]) -> Result<(), NoMemory>
    ensures text { OnOk result (string_bytes text.new ≡ string_bytes text.old ++ record_text (lines_of entries.now)) }
{
    for entry in entries {
        write_record_of(text, *entry)?;
    }
    Ok(())
}
