//! The output line of a script line.
ghost use Rattle.std.specs.Prelude.{◌≡◌, ◌≢◌, ◌++◌, ◌∷◌, [], Err, OnOk, MatchOption, string_bytes, length, codes};
ghost use Rattle.domain_core.specs.declared.event.Refusal.TheVariants as why;
ghost use Rattle.std.specs.List.{filter, flat_map, list_any};
ghost use Rattle.answer_text.specs.Digits.{byte_text};
ghost use Rattle.answer_text.specs.Replies.{reply_text};
ghost use Rattle.answer_text.specs.Results.{replies_told, is_shown, is_written, byte_read, bytes_read, bytes_told, shown_text, configured_text, taken_text, booted_text, word_text, bytes_text, behind_blank, reset_text, look_text, result_text, outcome_text, line_text};
ghost use Rattle.std.specs.Fmt.{decimal};
ghost use Rattle.bootstrap.specs.Messages.{boot_fault_number};

use crate::digits::write_byte;
use crate::replies::{write_refusal, write_reply};
use bootstrap::BootFault;
use domain_core::{AnsweredCommand, NoMemory, Refusal, Reply};
use script_lines::Command;
use virtual_switch::ConfigReply;

// Whether the switch answers a byte.
fn is_shown(reply: Reply) -> bool
    ensures { result ≡ is_shown reply }
{
    !matches!(reply, Reply::Config(ConfigReply::Nothing))
}

// Whether there is one that is shown.
fn is_any_shown(told: &[AnsweredCommand]) -> bool
    ensures { result ≡ list_any is_shown (replies_told told.now) }
{
    let mut is_any = false;
    for it in told {
        is_any |= is_shown(it.reply);
    }
    is_any
}

fn write_shown(text: &mut String, told: &[AnsweredCommand]) -> Result<(), NoMemory>
    ensures { OnOk result (string_bytes text.new ≡ string_bytes text.old ++ flat_map shown_text (replies_told told.now)) }
{
    for it in told {
        if is_shown(it.reply) {
            text.push_str(" ")?;
            write_reply(text, it.reply)?;
        }
    }
    Ok(())
}

// The replies of the switch other than Nothing, or a hyphen.
fn write_configured(text: &mut String, told: &[AnsweredCommand]) -> Result<(), NoMemory>
    ensures { OnOk result (string_bytes text.new ≡ string_bytes text.old ++ configured_text (replies_told told.now)) }
{
    if is_any_shown(told) {
        write_shown(text, told)
    } else {
        text.push_str(" -")
    }
}

// How many bytes a host took.
fn count_taken(told: &[AnsweredCommand]) -> usize
    ensures { result ≡ length (filter is_written (replies_told told.now)) }
{
    let mut count = 0;
    for it in told {
        if is_written(it.reply) {
            count += 1;
        }
    }
    count
}

fn is_written(reply: Reply) -> bool
    ensures { result ≡ is_written reply }
{
    matches!(reply, Reply::Written)
}

fn write_taken(text: &mut String, told: &[AnsweredCommand]) -> Result<(), NoMemory>
    ensures { OnOk result (string_bytes text.new ≡ string_bytes text.old ++ taken_text (replies_told told.now)) }
{
    let count = count_taken(told);
    write!(text, " {count}")
}

fn write_boot_fault(text: &mut String, fault: BootFault) -> Result<(), NoMemory>
    ensures { OnOk result (string_bytes text.new ≡ string_bytes text.old ++ codes " refused " ++ decimal (boot_fault_number fault)) }
{
    let number = fault.number();
    write!(text, " refused {number}")
}

// How many bytes of a boot message a host took, or why code is none.
fn write_booted(text: &mut String, code: &[u8], told: &[AnsweredCommand]) -> Result<(), NoMemory>
    ensures { OnOk result (string_bytes text.new ≡ string_bytes text.old ++ booted_text code.now (replies_told told.now)) }
{
    match BootFault::of_length(code.len()) {
        Some(fault) => write_boot_fault(text, fault),
        None => write_taken(text, told),
    }
}

// The byte that a read brought.
fn byte_read(reply: Reply) -> Option<u8>
    ensures { result ≡ byte_read reply }
{
    match reply {
        Reply::Read(byte) => byte,
        _ => None,
    }
}

// The first byte that came, and the rest of the list.
fn first_byte(told: &[AnsweredCommand]) -> Option<(u8, &[AnsweredCommand])>
    ensures { MatchOption result (bytes_told told.now ≡ []) (λ found. bytes_told told.now ≡ found.0 ∷ bytes_told found.1.now) }
{
    let mut rest = told;
    while let Some((first, after)) = rest.split_first() {
        rest = after;
        if let Some(byte) = byte_read(first.reply) {
            return Some((byte, rest));
        }
    }
    None
}

// The first four bytes that came.
fn first_word(told: &[AnsweredCommand]) -> Option<[u8; 4]>
    ensures { MatchOption result (word_text (bytes_told told.now) ≡ codes " -") (λ bytes. word_text (bytes_told told.now) ≡ word_text bytes) }
{
    let (a, rest) = first_byte(told)?;
    let (b, rest) = first_byte(rest)?;
    let (c, rest) = first_byte(rest)?;
    let (d, _) = first_byte(rest)?;
    Some([a, b, c, d])
}

// A word of four bytes, or a hyphen.
fn write_word(text: &mut String, told: &[AnsweredCommand]) -> Result<(), NoMemory>
    ensures { OnOk result (string_bytes text.new ≡ string_bytes text.old ++ word_text (bytes_told told.now)) }
{
    match first_word(told) {
        Some(word) => {
            let [a, b, c, d] = word;
            text.push_str(" ")?;
            write_byte(text, d)?;
            write_byte(text, c)?;
            write_byte(text, b)?;
            write_byte(text, a)
        }
        None => text.push_str(" -"),
    }
}

// The byte that a read brought, if it brought one.
fn write_read(text: &mut String, reply: Reply) -> Result<(), NoMemory>
    ensures { OnOk result (string_bytes text.new ≡ string_bytes text.old ++ flat_map byte_text (bytes_read (reply ∷ []))) }
{
    match byte_read(reply) {
        Some(byte) => write_byte(text, byte),
        None => Ok(()),
    }
}

fn write_all_bytes(text: &mut String, told: &[AnsweredCommand]) -> Result<(), NoMemory>
    ensures { OnOk result (string_bytes text.new ≡ string_bytes text.old ++ flat_map byte_text (bytes_told told.now)) }
{
    for it in told {
        write_read(text, it.reply)?;
    }
    Ok(())
}

// All bytes that came, or a hyphen.
fn write_bytes(text: &mut String, told: &[AnsweredCommand]) -> Result<(), NoMemory>
    ensures { OnOk result (string_bytes text.new ≡ string_bytes text.old ++ bytes_text (bytes_told told.now)) }
{
    if first_byte(told).is_some() {
        text.push_str(" ")?;
        write_all_bytes(text, told)
    } else {
        text.push_str(" -")
    }
}

// What came of a reset.
fn write_reset(text: &mut String, reply: Reply) -> Result<(), NoMemory>
    ensures { OnOk result (string_bytes text.new ≡ string_bytes text.old ++ reset_text reply) }
{
    match reply {
        Reply::Reset => text.push_str(" ok"),
        _ => write_behind_blank(text, reply),
    }
}

// A blank, and then a reply.
fn write_behind_blank(text: &mut String, reply: Reply) -> Result<(), NoMemory>
    ensures { OnOk result (string_bytes text.new ≡ string_bytes text.old ++ behind_blank (reply_text reply)) }
{
    text.push_str(" ")?;
    write_reply(text, reply)
}

fn write_resets(text: &mut String, told: &[AnsweredCommand]) -> Result<(), NoMemory>
    ensures { OnOk result (string_bytes text.new ≡ string_bytes text.old ++ flat_map reset_text (replies_told told.now)) }
{
    for it in told {
        write_reset(text, it.reply)?;
    }
    Ok(())
}

fn write_looks(text: &mut String, told: &[AnsweredCommand]) -> Result<(), NoMemory>
    ensures { OnOk result (string_bytes text.new ≡ string_bytes text.old ++ flat_map look_text (replies_told told.now)) }
{
    for it in told {
        write_behind_blank(text, it.reply)?;
    }
    Ok(())
}

// What is shown of the replies to what a line asked.
fn write_result(
    text: &mut String,
    command: &Command,
    told: &[AnsweredCommand],
) -> Result<(), NoMemory>
    ensures { OnOk result (string_bytes text.new ≡ string_bytes text.old ++ result_text command.now (replies_told told.now)) }
{
    match command {
        Command::Config(_) => write_configured(text, told),
        Command::Write { .. } | Command::Poke { .. } => write_taken(text, told),
        Command::Boot { code, .. } => write_booted(text, code.as_slice(), told),
        Command::Peek { .. } => write_word(text, told),
        Command::Collect { .. } => write_bytes(text, told),
        Command::Reset { .. } => write_resets(text, told),
        Command::Look { .. } => write_looks(text, told),
    }
}

// The result, or the refusal in its place.
fn write_outcome(
    text: &mut String,
    command: &Command,
    told: &[AnsweredCommand],
    ended: Result<(), Refusal>,
) -> Result<(), NoMemory>
    ensures text { OnOk result (string_bytes text.new ≡ string_bytes text.old ++ outcome_text command.now (replies_told told.now) ended) }
    ensures memory { OnOk result (ended ≢ Err why.NoMemory) }
{
    match ended {
        Ok(()) => write_result(text, command, told),
        Err(refusal) => {
            text.push_str(" ")?;
            write_refusal(text, refusal)
        }
    }
}

/// Appends the output line of a line: the user's name, the verb, the number of a host or node, and what came of it.
///
/// # Errors
///
/// `NoMemory` if the text can't grow, and if the line ended because memory ran out, which has no word.
pub fn write_line(
    text: &mut String,
    name: &str,
    command: &Command,
    told: &[AnsweredCommand],
    ended: Result<(), Refusal>,
) -> Result<(), NoMemory>
    ensures text { OnOk result (string_bytes text.new ≡ string_bytes text.old ++ line_text name.now command.now (replies_told told.now) ended) }
    ensures memory { OnOk result (ended ≢ Err why.NoMemory) }
{
    let verb = command.verb().name();
    write!(text, "{name} {verb}")?;
    if let Some(target) = command.target() {
        write!(text, " {target}")?;
    }
    write_outcome(text, command, told, ended)?;
    text.push_str("\n")
}
