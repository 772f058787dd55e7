//! A text and its output.
ghost use Rattle.std.specs.Prelude.{◌≡◌, ◌≢◌, IfOk, IfErr, IfSome, map, string_bytes};
ghost use Rattle.std.specs.List.{concat};
ghost use Rattle.std.specs.Io.KnownBytes.{Keeps};
ghost use Rattle.farm_cli.specs.declared.failure.FarmFailure.{FarmFailure as SpecFailure};
ghost use Rattle.farm_cli.specs.Failures.{EndsBy, IsFailure};
ghost use Rattle.farm_cli.specs.Settings.{InRange};
ghost use Rattle.farm_program.specs.Output.{IsOutput, Prints, PrintsBeginning};

use crate::farm::run_script;
use farm_cli::{Ending, FarmFailure, Settings, lines_of, plan_of, text_read};
use script_text::{WriteFailed, divide_at_plan_end, write_texts};
use std::alloc::Global;
use std::io::{Read, Write};
use std::sync::Wait;
use std::thread::Threads;
use whole_farm::laws::each_domain_of_a_plan_is_private;

// The output of a text, a screen for each user.
fn screens_of<R: Threads + Wait + Sync>(
    rt: &R,
    alloc: Global,
    settings: Settings,
    text: &[u8],
) -> Result<Vec<String>, FarmFailure>
    requires { InRange settings }
    ensures output { IfOk result (λ screens. IsOutput text.now (concat (map string_bytes screens.items))) }
    ensures failure { IfErr result (IsFailure text.now) }
{
    let parts = divide_at_plan_end(text);
    let plan = plan_of(alloc, parts.plan)?;
    let asked = lines_of(alloc, &plan, parts.rest)?;
    let ended = run_script(rt, alloc, plan, asked.as_slice(), settings)?;
    // Each history is one of its domain alone.
    each_domain_of_a_plan_is_private();
    Ok(ended.screens)
}

// Runs what a text asks, as `answer` does.
// Six clauses: those of `answer`.
fn answer_text<R: Threads + Wait + Sync, W: Write, E: Write>(
    rt: &R,
    alloc: Global,
    settings: Settings,
    text: &[u8],
    output: &mut W,
    errors: &mut E,
) -> Ending
    requires { InRange settings }
    ensures printed { result.status ≡ 0 → Prints text.now (W.contents output.old) (W.contents output.new) }
    ensures silent { result.status ≡ 0 → Keeps (E.contents errors.old) (E.contents errors.new) }
    ensures failure { result.status ≢ 0 → (failure : SpecFailure) × EndsBy failure result (E.contents errors.old) (E.contents errors.new)
        × IsFailure text.now failure }
    ensures kept { result.status ≢ 0 → result.status ≢ 6 → Keeps (W.contents output.old) (W.contents output.new) }
    ensures begun { PrintsBeginning text.now (W.contents output.old) (W.contents output.new) }
{
    match screens_of(rt, alloc, settings, text) {
        Ok(screens) => match write_texts(output, screens.as_slice()) {
            Ok(()) => Ending {
                status: 0,
                stderr_written: true,
            },
            Err(WriteFailed) => FarmFailure::Io.report(errors),
        },
        Err(failure) => failure.report(errors),
    }
}

/// Reads a plan and a script to the end of the input, runs the script on a farm of the plan, and writes a line for each of its
/// lines.
///
/// The status is 0 if all is written, 3 if the plan is refused, 4 if a line of the script is, 5 if there is no memory or a thread
/// can't be started, and 6 if a stream failed. For 3 to 5 nothing goes to the output, for 6 nothing or a beginning of the lines;
/// for all but 0 a text goes to the errors.
// Six clauses: which settings there are, what goes to the output and to the errors with status 0 and with another, and what
// may be printed then.
pub fn answer<R: Threads + Wait + Sync, I: Read, W: Write, E: Write>(
    rt: &R,
    alloc: Global,
    settings: Settings,
    input: &mut I,
    output: &mut W,
    errors: &mut E,
) -> Ending
    requires { InRange settings }
    ensures printed { result.status ≡ 0 → IfSome (I.remaining input.old) (λ text. Prints text (W.contents output.old) (W.contents output.new)) }
    ensures silent { result.status ≡ 0 → Keeps (E.contents errors.old) (E.contents errors.new) }
    ensures failure { result.status ≢ 0 → (failure : SpecFailure) × EndsBy failure result (E.contents errors.old) (E.contents errors.new)
        × IfSome (I.remaining input.old) (λ text. IsFailure text failure) }
    ensures kept { result.status ≢ 0 → result.status ≢ 6 → Keeps (W.contents output.old) (W.contents output.new) }
    ensures begun { IfSome (I.remaining input.old) (λ text. PrintsBeginning text (W.contents output.old) (W.contents output.new)) }
{
    match text_read(alloc, input) {
        Ok(text) => answer_text(rt, alloc, settings, text.as_slice(), output, errors),
        Err(unread) => unread.report(errors),
    }
}
