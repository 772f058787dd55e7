//! How many words of the frame a program uses, and how many processes it starts.
ghost use Rattle.std.specs.Prelude.{◌≡◌, max, if◌then◌else◌};
ghost use Rattle.occam_code.specs.Words.{as_word, is_leaf as leaf, temporaries_of as temporaries, with_channel as values_with_channel, with_value as values_with_value, with_guard as values_with_guard, guards_temporaries as values_of_guards, process_temporaries as process_values, processes_below as below, is_parallel as is_par, workspace_words as words};

use crate::expressions::is_leaf;
use occam_core::{CoreChannel, CoreGuard, CoreProcess, Expression};

/// How many words of the workspace from word 0 up a program with this number of variables uses: word 0, the variables, and
/// what the values that are kept for later need at most. It is 2^32 - 1 if there are more.
pub fn workspace_words(p: &CoreProcess, variables: u32) -> u32
    ensures words { result ≡ as_word (words p.now variables) }
{
    process_temporaries(p)
        .saturating_add(variables)
        .saturating_add(1)
}

/// How many processes below that of a program can live at the same time. Each takes four words, which are below the
/// workspace of the program. It is 2^32 - 1 if there are more.
pub fn processes_below(p: &CoreProcess) -> u32
    ensures processes { result ≡ as_word (below p.now) }
{
    match p {
        CoreProcess::Line(_, p) | CoreProcess::While(_, p) | CoreProcess::Repeat(_, _, _, p) => {
            processes_below(p)
        }
        CoreProcess::Sequence(p, q) | CoreProcess::Choose(_, p, q) | CoreProcess::If(_, p, q) => {
            processes_below(p).max(processes_below(q))
        }
        CoreProcess::Parallel(p, q) => {
            let last = if is_parallel(q) { 1 } else { 2 };
            processes_below(p)
                .saturating_add(processes_below(q))
                .saturating_add(last)
        }
        _ => 0,
    }
}

// A PAR of at least two components.
fn is_parallel(p: &CoreProcess) -> bool
    ensures { result ≡ is_par p.now }
{
    matches!(p, CoreProcess::Parallel(_, _))
}

/// How many words an expression keeps values in at most, or 2^32 - 1 if there are more.
pub fn temporaries_of(e: &Expression) -> u32
    ensures words { result ≡ as_word (temporaries e.now) }
{
    match e {
        Expression::Number(_) | Expression::Variable(_) => 0,
        Expression::Element(_, x) | Expression::One(_, x) | Expression::Below(_, x) => {
            temporaries_of(x)
        }
        Expression::Two(_, a, b) => {
            if is_leaf(b) {
                temporaries_of(a)
            } else {
                temporaries_of(a).saturating_add(1).max(temporaries_of(b))
            }
        }
        Expression::And(a, b) | Expression::Or(a, b) => temporaries_of(a).max(temporaries_of(b)),
    }
}

// The same while the address of a channel is kept as well, if it is an element of an array, and a statement keeps this
// number of values more.
fn with_channel(channel: &CoreChannel, more: u32) -> u32
    ensures { result ≡ as_word (values_with_channel channel.now more) }
{
    match channel {
        CoreChannel::Link(_) | CoreChannel::Inside(_) => more,
        CoreChannel::Element(_, i) => temporaries_of(i).max(more.saturating_add(1)),
    }
}

// The same while a value is kept, unless it is a leaf.
fn with_value(e: &Expression, more: u32) -> u32
    ensures { result ≡ as_word (values_with_value e.now more) }
{
    if is_leaf(e) {
        more
    } else {
        temporaries_of(e).max(more.saturating_add(1))
    }
}

// The same while the condition and the channel of a guard are kept.
fn with_guard(guard: &CoreGuard, more: u32) -> u32
    ensures { result ≡ as_word (values_with_guard guard.now more) }
{
    match guard {
        CoreGuard::Input(e, channel) => with_value(e, with_channel(channel, more)),
        CoreGuard::Skip(e) => with_value(e, more),
    }
}

// The same of the guards of an ALT together.
fn guards_temporaries(p: &CoreProcess) -> u32
    ensures { result ≡ as_word (values_of_guards p.now) }
{
    match p {
        CoreProcess::Choose(guard, _, others) => with_guard(guard, guards_temporaries(others)),
        _ => 0,
    }
}

// The same of an output.
fn output_temporaries(e: &Expression) -> u32
    ensures { result ≡ as_word (if leaf e.now then 0 else max (temporaries e.now) 1) }
{
    if is_leaf(e) {
        0
    } else {
        temporaries_of(e).max(1)
    }
}

// The same of a process.
pub(crate) fn process_temporaries(p: &CoreProcess) -> u32
    ensures { result ≡ as_word (process_values p.now) }
{
    match p {
        CoreProcess::Skip
        | CoreProcess::Stop
        | CoreProcess::Copy(_, _)
        | CoreProcess::Channels(_, _) => 0,
        CoreProcess::Line(_, p) => process_temporaries(p),
        CoreProcess::Assign(_, e) => temporaries_of(e),
        CoreProcess::AssignElement(_, i, e) => {
            temporaries_of(i).saturating_add(1).max(temporaries_of(e))
        }
        CoreProcess::Input(channel, _, _)
        | CoreProcess::InputArray(channel, _)
        | CoreProcess::OutputArray(channel, _) => with_channel(channel, 0),
        CoreProcess::InputElement(channel, _, i) => with_channel(channel, temporaries_of(i)),
        CoreProcess::Output(channel, _, e) => with_channel(channel, output_temporaries(e)),
        CoreProcess::Sequence(p, q) => process_temporaries(p).max(process_temporaries(q)),
        CoreProcess::Parallel(p, q) => {
            let join = if is_parallel(q) { 0 } else { 2 };
            process_temporaries(p)
                .saturating_add(process_temporaries(q))
                .saturating_add(join)
        }
        CoreProcess::Choose(guard, p, q) => with_guard(guard, guards_temporaries(q)).max(
            process_temporaries(p).max(process_temporaries(q)),
        ),
        CoreProcess::If(e, p, q) => temporaries_of(e)
            .max(process_temporaries(p))
            .max(process_temporaries(q)),
        CoreProcess::While(e, p) => temporaries_of(e).max(process_temporaries(p)),
        CoreProcess::Repeat(_, base, count, p) => temporaries_of(base)
            .max(temporaries_of(count))
            .max(process_temporaries(p)),
    }
}
