//! What a domain answers.
ghost use Rattle.std.specs.Prelude.{◌≡◌, ◌≢◌, ◌++◌, OnOk, string_bytes};
ghost use Rattle.std.specs.Fmt.{AppendsText};
ghost use Rattle.domain_core.specs.declared.event.Refusal.TheVariants as why;
ghost use Rattle.answer_text.specs.Replies.{config_reply_text, fault_text, stepped_text, activity_text, seen_text, reply_text, refusal_text};

use crate::digits::write_byte;
use bootstrap::{Activity, Fault, Seen, Stepped};
use domain_core::{Moved, NoMemory, Refusal, Reply};
use virtual_switch::ConfigReply;

/// Appends the switch's reply to a byte: `nothing`, two digits of an answer, `badcommand` or `badport`.
pub fn write_config_reply(text: &mut String, reply: ConfigReply) -> Result<(), NoMemory>
    ensures text { OnOk result (string_bytes text.new ≡ string_bytes text.old ++ config_reply_text reply) }
{
    match reply {
        ConfigReply::Nothing => text.push_str("nothing"),
        ConfigReply::Answer(byte) => write_byte(text, byte),
        ConfigReply::BadCommand => text.push_str("badcommand"),
        ConfigReply::BadPort => text.push_str("badport"),
    }
}

/// Appends the number of a fault. After number 2 come a blank and the operand that is the code of
/// no operation, in hexadecimal digits.
pub fn write_fault(text: &mut String, fault: Fault) -> Result<(), NoMemory>
    ensures text { OnOk result (string_bytes text.new ≡ string_bytes text.old ++ fault_text fault) }
{
    write!(text, "{}", fault.number())?;
    match fault {
        Fault::UnknownOperation(code) => write!(text, " {code:x}"),
        _ => Ok(()),
    }
}

/// Appends what a Step came to: `ran`, `idle`, or `fault` and the fault.
pub fn write_stepped(text: &mut String, stepped: Stepped) -> Result<(), NoMemory>
    ensures text { OnOk result (string_bytes text.new ≡ string_bytes text.old ++ stepped_text stepped) }
{
    match stepped {
        Stepped::Ran => text.push_str("ran"),
        Stepped::Idle => text.push_str("idle"),
        Stepped::Fault(fault) => {
            text.push_str("fault ")?;
            write_fault(text, fault)
        }
    }
}

// Appends what a node is seen to do: `booting`, `running`, `idle`, or `halted` and the fault.
fn write_activity(text: &mut String, state: Activity) -> Result<(), NoMemory>
    ensures text { OnOk result (string_bytes text.new ≡ string_bytes text.old ++ activity_text state) }
{
    match state {
        Activity::Booting => text.push_str("booting"),
        Activity::Running => text.push_str("running"),
        Activity::Idle => text.push_str("idle"),
        Activity::Halted(fault) => {
            text.push_str("halted ")?;
            write_fault(text, fault)
        }
    }
}

/// Appends what is seen of a node: `booting`, `running`, `idle` or `halted` and the fault, and how many bytes each link
/// dropped.
pub fn write_seen(text: &mut String, seen: Seen) -> Result<(), NoMemory>
    ensures text { OnOk result (string_bytes text.new ≡ string_bytes text.old ++ seen_text seen) }
{
    write_activity(text, seen.state)?;
    let [zero, one, two, three] = seen.overruns;
    write!(text, " overruns {zero} {one} {two} {three}")
}

/// Appends the answer to an event.
pub fn write_reply(text: &mut String, reply: Reply) -> Result<(), NoMemory>
    ensures text { OnOk result (string_bytes text.new ≡ string_bytes text.old ++ reply_text reply) }
{
    match reply {
        Reply::Config(reply) => write_config_reply(text, reply),
        Reply::Written => text.push_str("written"),
        Reply::Full => text.push_str("full"),
        Reply::Read(Some(byte)) => write_byte(text, byte),
        Reply::Read(None) => text.push_str("none"),
        Reply::Reset => text.push_str("reset"),
        Reply::Look(seen) => write_seen(text, seen),
        Reply::Stepped(stepped) => write_stepped(text, stepped),
        Reply::Moved(Moved::Nothing) => text.push_str("nothing"),
        Reply::Moved(Moved::Lost) => text.push_str("lost"),
        Reply::Moved(Moved::Stayed) => text.push_str("stayed"),
        Reply::Moved(Moved::Passed) => text.push_str("passed"),
    }
}

/// Appends the word of a refusal, `nosuch` or `journalfull`. `Refusal::NoMemory` has no word: it is returned as the
/// error, as it is where the text can't grow.
pub fn write_refusal(text: &mut String, refusal: Refusal) -> Result<(), NoMemory>
    ensures text { OnOk result (AppendsText (string_bytes text.old) (string_bytes text.new) (refusal_text refusal)) }
    ensures memory { OnOk result (refusal ≢ why.NoMemory) }
{
    match refusal {
        Refusal::NoSuch => text.push_str("nosuch"),
        Refusal::JournalFull => text.push_str("journalfull"),
        Refusal::NoMemory => Err(NoMemory),
    }
}
