//! The code of processes.
ghost use Rattle.std.specs.Prelude.{◌≡◌, ◌+◌, ◌*◌, ◌≤◌, [], ◌∷◌, ◌++◌, OnOk, length, slice_set};
ghost use Rattle.node_memory.specs.Words.{◌⊕◌};
ghost use Rattle.occam_code.specs.Instructions as asm;
ghost use Rattle.occam_code.specs.Guards.{guards_of, bodies_place, choose_code};
ghost use Rattle.occam_code.specs.Components.{components, inside as words_inside, component_code, parallel_code};
ghost use Rattle.occam_code.specs.Code.{process_code, process_marks, bodies_codes, bodies_marks};
ghost use Rattle.occam_code.specs.Filled.{codes_from, parts_code, bodies_code, marks_from, FillsStarts, FillsDisables, disables_size, has_guards as begins_with_guard};

use crate::components::*;
use crate::emission::LineMark;
use crate::expressions::emit_expression;
use crate::frame::FrameWords;
use crate::guards::*;
use crate::instructions::*;
use crate::messages::*;
use crate::statements::*;
use occam_core::CoreProcess;
use std::alloc::AllocError;
use t414_assembly::Statement;
use t414_decode::Function;

/// Appends the code of a process, and for each line the place where its code begins. Labels are places, from the start of
/// `code`. Words are used as `emit_expression` does.
///
/// # Errors
///
/// If the statements or the marks can't be kept. Some of them may have been appended then.
#[cycle(process)]
pub fn emit_process(
    code: &mut Vec<Statement>,
    marks: &mut Vec<LineMark>,
    words: FrameWords,
    p: &CoreProcess,
) -> Result<(), AllocError>
    ensures code { OnOk result (code.new.items ≡ code.old.items ++ process_code (length code.old.items) words p.now) }
    ensures marks { OnOk result (marks.new.items ≡ marks.old.items ++ process_marks (length code.old.items) words p.now) }
{
    match p {
        CoreProcess::Skip => Ok(()),
        CoreProcess::Stop => operate(code, SET_ERROR),
        CoreProcess::Line(at, p) => {
            marks.push(LineMark {
                place: code.len(),
                line: at.line,
            })?;
            emit_process(code, marks, words, p)
        }
        CoreProcess::Assign(v, e) => {
            emit_expression(code, words, e)?;
            put(code, Function::StoreLocal, v.wrapping_add(words.base))
        }
        CoreProcess::AssignElement(array, i, e) => {
            emit_assign_element(code, words, *array, i, e)
        }
        CoreProcess::Copy(to, from) => emit_copy(code, words.base, *to, *from),
        CoreProcess::Channels(first, count) => emit_channels(code, words.base, *first, *count),
        CoreProcess::Input(channel, message, v) => {
            emit_input(code, words, channel, *message, *v)
        }
        CoreProcess::InputElement(channel, array, i) => {
            emit_input_element(code, words, channel, *array, i)
        }
        CoreProcess::InputArray(channel, array) => {
            emit_array_message(code, words, channel, *array, INPUT_MESSAGE)
        }
        CoreProcess::Output(channel, message, e) => {
            emit_output(code, words, channel, *message, e)
        }
        CoreProcess::OutputArray(channel, array) => {
            emit_array_message(code, words, channel, *array, OUTPUT_MESSAGE)
        }
        CoreProcess::Sequence(p, q) => {
            emit_process(code, marks, words, p)?;
            emit_process(code, marks, words, q)
        }
        CoreProcess::Parallel(first, others) => emit_parallel(code, marks, words, first, others),
        CoreProcess::Choose(_, _, _) => emit_choose(code, marks, words, p),
        CoreProcess::If(e, p, q) => {
            emit_expression(code, words, e)?;
            let choice = code.len();
            jump_to(code, Function::ConditionalJump, 0)?;
            emit_process(code, marks, words, p)?;
            let first_end = code.len();
            jump_to(code, Function::Jump, 0)?;
            land(code, choice, Function::ConditionalJump);
            emit_process(code, marks, words, q)?;
            land(code, first_end, Function::Jump);
            Ok(())
        }
        CoreProcess::While(e, p) => {
            let start = code.len();
            emit_expression(code, words, e)?;
            let test_end = code.len();
            jump_to(code, Function::ConditionalJump, 0)?;
            emit_process(code, marks, words, p)?;
            jump_to(code, Function::Jump, start)?;
            land(code, test_end, Function::ConditionalJump);
            Ok(())
        }
        CoreProcess::Repeat(v, base, count, p) => {
            let index = v.wrapping_add(words.base);
            emit_expression(code, words, base)?;
            put(code, Function::StoreLocal, index)?;
            emit_expression(code, words, count)?;
            emit_count(code, index.wrapping_add(1))?;
            let test_end = code.len();
            jump_to(code, Function::ConditionalJump, 0)?;
            let body = code.len();
            emit_process(code, marks, words, p)?;
            emit_loop_end(code, index, body)?;
            land(code, test_end, Function::ConditionalJump);
            Ok(())
        }
    }
}

// A PAR of a component and others. Where it goes on is written once it is known, and so is where each component begins.
#[cycle(process)]
fn emit_parallel(
    code: &mut Vec<Statement>,
    marks: &mut Vec<LineMark>,
    words: FrameWords,
    first: &CoreProcess,
    others: &CoreProcess,
) -> Result<(), AllocError>
    ensures code { OnOk result (code.new.items ≡ code.old.items
        ++ parallel_code (length code.old.items) words (first.now ∷ components others.now)
        (λ k. codes_from k (words.temporary ⊕ 4) (words_inside words) first.now others.now)) }
    ensures marks { OnOk result (marks.new.items ≡ marks.old.items
        ++ marks_from (length code.old.items + 3 * length (components others.now) + 10) (words_inside words) first.now
        others.now) }
{
    let next = words.temporary;
    let way_on = code.len();
    emit_joining(code, next, components_of(others).saturating_add(2))?;
    let starts = code.len();
    emit_starts_of(code, first, others)?;
    emit_end(code, next)?;
    emit_components(
        code,
        marks,
        inside(words),
        next.wrapping_add(4),
        starts,
        first,
        others,
    )?;
    land_from(code, way_on, way_on + 2);
    put(code, Function::AdjustWorkspace, 0u32.wrapping_sub(next))
}

// The components of a PAR. The first has these words. Their starts begin at the place `starts`.
#[cycle(process)]
fn emit_components(
    code: &mut Vec<Statement>,
    marks: &mut Vec<LineMark>,
    words: FrameWords,
    next: u32,
    starts: usize,
    first: &CoreProcess,
    others: &CoreProcess,
) -> Result<(), AllocError>
    requires starts { starts + 3 * length (components others.now) + 3 ≤ length code.old.items }
    ensures length { OnOk result (length code.new.items ≡ length code.old.items
        + length (parts_code (length code.old.items) next words first.now others.now)) }
    ensures code { OnOk result (FillsStarts code.old.items code.new.items starts words next first.now others.now) }
    ensures marks { OnOk result (marks.new.items ≡ marks.old.items
        ++ marks_from (length code.old.items) words first.now others.now) }
{
    emit_component(code, marks, words, next, starts, first)?;
    let words = after_component(words, first);
    let next = next.wrapping_add(words_below(first));
    match others {
        CoreProcess::Parallel(second, others) => {
            emit_components(code, marks, words, next, starts + 3, second, others)
        }
        _ => emit_component(code, marks, words, next, starts + 3, others),
    }
}

// A component of a PAR, whose start is at the place `start`.
#[cycle(process)]
fn emit_component(
    code: &mut Vec<Statement>,
    marks: &mut Vec<LineMark>,
    words: FrameWords,
    next: u32,
    start: usize,
    p: &CoreProcess,
) -> Result<(), AllocError>
    requires start { start + 3 ≤ length code.old.items }
    ensures code { let k = length code.old.items in OnOk result (code.new.items
        ≡ slice_set code.old.items start (asm.ldc_distance k (start + 3))
        ++ component_code next (process_code k words p.now)) }
    ensures marks { OnOk result (marks.new.items ≡ marks.old.items ++ process_marks (length code.old.items) words p.now) }
{
    land_from(code, start, start + 3);
    emit_process(code, marks, words, p)?;
    emit_end(code, next)
}

// An ALT. How far it is to the process of each guard is written once it is known.
#[cycle(process)]
fn emit_choose(
    code: &mut Vec<Statement>,
    marks: &mut Vec<LineMark>,
    words: FrameWords,
    p: &CoreProcess,
) -> Result<(), AllocError>
    ensures code { OnOk result (code.new.items ≡ code.old.items
        ++ choose_code (length code.old.items) words (guards_of p.now) (λ k. bodies_codes k words p.now)) }
    ensures marks { OnOk result (marks.new.items ≡ marks.old.items
        ++ bodies_marks (bodies_place (length code.old.items) words (guards_of p.now)) words p.now) }
{
    keep_guards(code, words, p)?;
    emit_check(code, words, p)?;
    operate(code, ALT_START)?;
    emit_enables(code, words, p)?;
    operate(code, ALT_WAIT)?;
    let disables = code.len();
    emit_disables(code, words, p)?;
    operate(code, ALT_END)?;
    let selected = code.len();
    emit_bodies(code, marks, words, disables, selected, p)
}

// The processes of an ALT. The operations that disable its guards begin at the place `disables`, and find out how far it is
// from the place `selected` to the process of each.
#[cycle(process)]
fn emit_bodies(
    code: &mut Vec<Statement>,
    marks: &mut Vec<LineMark>,
    words: FrameWords,
    disables: usize,
    selected: usize,
    p: &CoreProcess,
) -> Result<(), AllocError>
    requires disables { disables + disables_size (guards_of p.now) ≤ length code.old.items }
    ensures length { OnOk result (length code.new.items ≡ length code.old.items
        + length (bodies_code (length code.old.items) words p.now)) }
    ensures code { OnOk result (FillsDisables code.old.items code.new.items disables selected words p.now) }
    ensures marks { OnOk result (marks.new.items ≡ marks.old.items ++ bodies_marks (length code.old.items) words p.now) }
{
    match p {
        CoreProcess::Choose(guard, first, others) => {
            let offset = disables + guard_length(guard);
            land_from(code, offset, selected);
            emit_process(code, marks, words, first)?;
            if has_guards(others) {
                let end = code.len();
                jump_to(code, Function::Jump, 0)?;
                emit_bodies(code, marks, words, offset + 2, selected, others)?;
                land(code, end, Function::Jump);
                Ok(())
            } else {
                Ok(())
            }
        }
        _ => Ok(()),
    }
}

// Whether a process has guards of an ALT.
fn has_guards(p: &CoreProcess) -> bool
    ensures { result ≡ begins_with_guard p.now }
{
    matches!(p, CoreProcess::Choose(_, _, _))
}
