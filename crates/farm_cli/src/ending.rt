//! How a run ends whose words give no settings.
ghost use Rattle.std.specs.Prelude.{◌≡◌, ◌≢◌, ◌⊎◌, ℕ, List};
ghost use Rattle.std.specs.Io.KnownBytes.{Keeps};
ghost use Rattle.std.specs.IoError.{error_kind};
ghost use Rattle.clap.specs.Words.{kind_of};
ghost use Rattle.farm_cli.specs.Endings.{EndsByKind, EndsByMemory, EndsUnread, RefusesWords};

use crate::failure::{Ending, FarmFailure};
use clap::error::ErrorKind;
use script_text::{WriteFailed, write_whole};
use std::alloc::Global;
use std::io::{self, Write};

/// Ends a run whose words give no settings, by the error of `clap` that says why: the text of `--help` goes to the output by
/// status 0, any other text to the errors by status 2. If memory ran out, the status is 5.
pub fn end_by_error<W: Write, E: Write>(
    alloc: Global,
    error: clap::Error,
    output: &mut W,
    errors: &mut E,
) -> Ending
    ensures ending { EndsByMemory result (W.contents output.old) (W.contents output.new) (E.contents errors.old) (E.contents errors.new)
        ⊎ ((kind_of error ≢ ErrorKind.OutOfMemory) × (text : List ℕ) × EndsByKind (kind_of error) text result
        (W.contents output.old) (W.contents output.new) (E.contents errors.old) (E.contents errors.new)) }
    ensures silent { result.status ≡ 0 → Keeps (E.contents errors.old) (E.contents errors.new) }
    ensures kept { result.status ≢ 0 → result.status ≢ 6 → Keeps (W.contents output.old) (W.contents output.new) }
{
    let kind = error.kind();
    if kind == ErrorKind::OutOfMemory {
        return FarmFailure::Memory.report(errors);
    }
    match format!(in alloc; "{error}") {
        Ok(text) => end_by_text(kind, text.as_bytes(), output, errors),
        Err(_) => FarmFailure::Memory.report(errors),
    }
}

// Ends a run by what the words have: the text of `--help` goes to standard output, and any other to standard error.
fn end_by_text<W: Write, E: Write>(
    kind: ErrorKind,
    text: &[u8],
    output: &mut W,
    errors: &mut E,
) -> Ending
    ensures ending { EndsByKind kind text.now result (W.contents output.old) (W.contents output.new) (E.contents errors.old) (E.contents errors.new) }
    ensures silent { result.status ≡ 0 → Keeps (E.contents errors.old) (E.contents errors.new) }
    ensures kept { result.status ≢ 0 → result.status ≢ 6 → Keeps (W.contents output.old) (W.contents output.new) }
{
    if kind != ErrorKind::DisplayHelp {
        return refuse(text, errors);
    }
    match write_whole(output, text) {
        Ok(()) => Ending {
            status: 0,
            stderr_written: true,
        },
        Err(WriteFailed) => FarmFailure::Io.report(errors),
    }
}

// Refuses words, and tells why.
fn refuse<E: Write>(text: &[u8], errors: &mut E) -> Ending
    ensures { RefusesWords text.now result (E.contents errors.old) (E.contents errors.new) }
{
    Ending {
        status: 2,
        stderr_written: write_whole(errors, text).is_ok(),
    }
}

/// Ends a run whose words couldn't be read: the status is 5 if memory ran out, else 2.
pub fn refuse_arguments<E: Write>(error: &io::Error, errors: &mut E) -> Ending
    ensures { EndsUnread (error_kind error.now) result (E.contents errors.old) (E.contents errors.new) }
{
    match error.kind() {
        io::ErrorKind::OutOfMemory => FarmFailure::Memory.report(errors),
        _ => refuse(b"error: an argument isn't UTF-8\n", errors),
    }
}
