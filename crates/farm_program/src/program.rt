//! The program over its words and its streams.
ghost use Rattle.std.specs.Prelude.{◌≡◌, ◌≢◌, ◌⊎◌, IfSome, map};
ghost use Rattle.std.specs.Io.KnownBytes.{Keeps};
ghost use Rattle.farm_cli.specs.declared.failure.FarmFailure.{FarmFailure as SpecFailure};
ghost use Rattle.farm_cli.specs.Endings.{GiveSettings};
ghost use Rattle.farm_cli.specs.Failures.{IsFailure};
ghost use Rattle.farm_program.specs.Output.{Prints, PrintsBeginning};
ghost use Rattle.farm_program.specs.Statuses.{EndsByStatus, WordsGiveStatus};

use crate::answering::answer;
use farm_cli::{end_by_error, settings};
use std::alloc::Global;
use std::convert::AsStr;
use std::io::{Read, Write};
use std::sync::Wait;
use std::thread::Threads;

/// Runs the program over the words of its command line, its standard input and its two outputs. The first word is the
/// program's name. The answer is the status of the process.
///
/// If the words give settings, a plan and a script are read to the end of the input, the script is run on a farm of the plan,
/// and a line is written for each of its lines. The status is 0 if all is written, 3 if the plan is refused, 4 if a line of the
/// script is, 5 if there is no memory or a thread can't be started, and 6 if a stream failed. For 3 to 5 nothing goes to the
/// output, for 6 nothing or a beginning of the lines; for all but 0 a text goes to the errors, or a beginning of it if a write
/// failed.
///
/// Else the input isn't read: the status is 2 if the words are refused, and 0 after the text of `--help`.
// Seven clauses: what goes to the output and to the errors as in `answer`, and how a run ends and what it leaves alone if it
// isn't to answer.
pub fn run<R: Threads + Wait + Sync, S: AsStr, I: Read, W: Write, E: Write>(
    rt: &R,
    alloc: Global,
    words: &[S],
    input: &mut I,
    output: &mut W,
    errors: &mut E,
) -> u8
    ensures printed { GiveSettings (map S.text words.now) → result ≡ 0
        → IfSome (I.remaining input.old) (λ text. Prints text (W.contents output.old) (W.contents output.new)) }
    ensures silent { result ≡ 0 → Keeps (E.contents errors.old) (E.contents errors.new) }
    ensures failure { GiveSettings (map S.text words.now) → result ≢ 0 → (failure : SpecFailure)
        × EndsByStatus failure result (E.contents errors.old) (E.contents errors.new)
        × IfSome (I.remaining input.old) (λ text. IsFailure text failure) }
    ensures words { GiveSettings (map S.text words.now) ⊎ WordsGiveStatus (map S.text words.now) result
        (W.contents output.old) (W.contents output.new) (E.contents errors.old) (E.contents errors.new) }
    ensures unread { GiveSettings (map S.text words.now) ⊎ (input.new ≡ input.old) }
    ensures kept { result ≢ 0 → result ≢ 6 → Keeps (W.contents output.old) (W.contents output.new) }
    ensures begun { GiveSettings (map S.text words.now)
        → IfSome (I.remaining input.old) (λ text. PrintsBeginning text (W.contents output.old) (W.contents output.new)) }
{
    match settings(alloc, words) {
        Ok(settings) => answer(rt, alloc, settings, input, output, errors).status,
        Err(error) => end_by_error(alloc, error, output, errors).status,
    }
}
