//! A law of instructions and the steps that they take.

ghost use Rattle.t414_step.specs.Instructions.{InstructionsAreSteps};

use link_channels::services_act_on_work;

/// The bytes of an instruction are as many steps, which together do what the instruction's row says, if a process runs, no operand
/// is begun, and no link has work.
///
/// Source: Transputer instruction set handbook, prefixing functions.
pub fn instructions_are_steps()
    ensures law { InstructionsAreSteps }
{
    // Links are served only if one of them has work.
    services_act_on_work();
}
