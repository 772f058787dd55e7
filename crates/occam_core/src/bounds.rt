//! Whether a process speaks only of words and links that there are.
ghost use Rattle.std.specs.Prelude.{◌≡◌, ◌≤◌};
ghost use Rattle.occam_core.specs.Bounds.{words_of_array, has_array, has_channel, has_expression, has_guard, has_input, has_output, has_process};

use crate::channel::{CoreChannel, CoreGuard};
use crate::expression::{CoreArray, ElementKind, Expression};
use crate::process::CoreProcess;

// The number of the first output of the links, and of their first input.
const FIRST_OUTPUT: u8 = 0;

const FIRST_INPUT: u8 = 4;

// How many words the elements of an array take.
fn words_of_array(array: CoreArray) -> u64
    ensures { result ≡ words_of_array array }
{
    let length = u64::from(array.length);
    match array.kind {
        ElementKind::Byte => (length + 3) / 4,
        ElementKind::Word => length,
    }
}

fn has_array(words: u32, array: CoreArray) -> bool
    ensures { result ≡ has_array words array }
{
    u64::from(array.first) + words_of_array(array) <= u64::from(words)
}

fn has_expression(words: u32, e: &Expression) -> bool
    ensures { result ≡ has_expression words e.now }
{
    match e {
        Expression::Number(_) => true,
        Expression::Variable(v) => *v < words,
        Expression::Element(array, i) => has_array(words, *array) && has_expression(words, i),
        Expression::One(_, a) | Expression::Below(_, a) => has_expression(words, a),
        Expression::Two(_, a, b) | Expression::And(a, b) | Expression::Or(a, b) => {
            has_expression(words, a) && has_expression(words, b)
        }
    }
}

// A channel at a link is one of four.
fn has_channel(words: u32, first: u8, channel: &CoreChannel) -> bool
    requires { first ≤ 4 }
    ensures { result ≡ has_channel words first channel.now }
{
    match channel {
        CoreChannel::Link(number) => first <= *number && *number < first + 4,
        CoreChannel::Inside(v) => *v < words,
        CoreChannel::Element(array, i) => has_array(words, *array) && has_expression(words, i),
    }
}

fn has_input(words: u32, channel: &CoreChannel) -> bool
    ensures { result ≡ has_input words channel.now }
{
    has_channel(words, FIRST_INPUT, channel)
}

fn has_output(words: u32, channel: &CoreChannel) -> bool
    ensures { result ≡ has_output words channel.now }
{
    has_channel(words, FIRST_OUTPUT, channel)
}

fn has_guard(words: u32, guard: &CoreGuard) -> bool
    ensures { result ≡ has_guard words guard.now }
{
    match guard {
        CoreGuard::Input(condition, channel) => {
            has_expression(words, condition) && has_input(words, channel)
        }
        CoreGuard::Skip(condition) => has_expression(words, condition),
    }
}

/// Whether all variables, arrays and channels of a process are among `words` words, and its links among those that a node has:
/// outputs where it sends, and inputs where it receives.
pub fn has_process(words: u32, p: &CoreProcess) -> bool
    ensures { result ≡ has_process words p.now }
{
    match p {
        CoreProcess::Skip | CoreProcess::Stop => true,
        CoreProcess::Line(_, p) => has_process(words, p),
        CoreProcess::Assign(v, e) => *v < words && has_expression(words, e),
        CoreProcess::AssignElement(array, i, e) => {
            has_array(words, *array) && has_expression(words, i) && has_expression(words, e)
        }
        CoreProcess::Copy(to, from) => {
            has_array(words, *to)
                && has_array(words, *from)
                && words_of_array(*to) == words_of_array(*from)
        }
        CoreProcess::Channels(first, count) => {
            u64::from(*first) + u64::from(*count) <= u64::from(words)
        }
        CoreProcess::Input(channel, _, v) => has_input(words, channel) && *v < words,
        CoreProcess::InputElement(channel, array, i) => {
            has_input(words, channel) && has_array(words, *array) && has_expression(words, i)
        }
        CoreProcess::InputArray(channel, array) => {
            has_input(words, channel) && has_array(words, *array)
        }
        CoreProcess::Output(channel, _, e) => {
            has_output(words, channel) && has_expression(words, e)
        }
        CoreProcess::OutputArray(channel, array) => {
            has_output(words, channel) && has_array(words, *array)
        }
        CoreProcess::Sequence(p, q) | CoreProcess::Parallel(p, q) => {
            has_process(words, p) && has_process(words, q)
        }
        CoreProcess::Choose(guard, p, q) => {
            has_guard(words, guard) && has_process(words, p) && has_process(words, q)
        }
        CoreProcess::If(e, p, q) => {
            has_expression(words, e) && has_process(words, p) && has_process(words, q)
        }
        CoreProcess::While(e, p) => has_expression(words, e) && has_process(words, p),
        CoreProcess::Repeat(v, base, count, p) => {
            u64::from(*v) + 1 < u64::from(words)
                && has_expression(words, base)
                && has_expression(words, count)
                && has_process(words, p)
        }
    }
}
