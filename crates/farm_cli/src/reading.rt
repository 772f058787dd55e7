//! A text, its plan and what its script asks.
ghost use Rattle.std.specs.Prelude.{◌≡◌, ◌<◌, IfOk, IfErr, IfSome, All, length};
ghost use Rattle.std.specs.Str.Lines.{lines};
ghost use Rattle.plan_rules.specs.Users.{all_names};
ghost use Rattle.plan_checker.specs.Accepting.{IsAcceptedText};
ghost use Rattle.script_lines.specs.Script.{IsScript};
ghost use Rattle.farm_cli.specs.Failures.{IsFailure, IsInputFailure, IsPlanFailure, IsScriptFailure};

use crate::failure::FarmFailure;
use plan_checker::{AcceptedPlan, accept_plan};
use script_lines::{ScriptLine, read_script};
use script_text::read_whole;
use std::alloc::Global;
use std::io::Read;

/// The text of an input that is read to its end. The failure is that the input failed, or that memory ran out.
pub fn text_read<I: Read>(alloc: Global, input: &mut I) -> Result<Vec<u8>, FarmFailure>
    ensures text { IfOk result (λ text. IfSome (I.remaining input.old) (λ left. text.items ≡ left)) }
    ensures failure { IfErr result (λ failure. IfSome (I.remaining input.old) (λ text. IsFailure text failure)) }
    ensures fault { IfErr result IsInputFailure }
{
    Ok(read_whole(alloc, input)?)
}

/// The plan that a text gives, if the checker accepts it. Else the failure is why it is refused, or that memory ran
/// out.
pub fn plan_of(alloc: Global, text: &[u8]) -> Result<AcceptedPlan, FarmFailure>
    ensures plan { IfOk result (IsAcceptedText text.now) }
    ensures fault { IfErr result (IsPlanFailure text.now) }
{
    Ok(accept_plan(alloc, text)?)
}

/// What the lines of a script ask, and for which users of the plan. The failure is the first line that is wrong, or
/// that memory ran out.
pub fn lines_of(
    alloc: Global,
    plan: &AcceptedPlan,
    script: &[u8],
) -> Result<Vec<ScriptLine>, FarmFailure>
    ensures asked { IfOk result (λ asked. IsScript (all_names plan.now) (lines script.now) asked.items) }
    ensures users { IfOk result (λ asked. All (λ l. l.user < length (all_names plan.now)) asked.items) }
    ensures fault { IfErr result (IsScriptFailure (all_names plan.now) (lines script.now)) }
{
    let names = plan.names(alloc)?;
    Ok(read_script(alloc, names.as_slice(), script)?)
}
