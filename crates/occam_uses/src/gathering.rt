//! What each statement uses.
ghost use Rattle.std.specs.Prelude.{◌≡◌, ◌≤◌, ◌+◌, ◌*◌, ◌^◌, [], ◌∷◌, ◌++◌, true, OnOk};
ghost use Rattle.occam_uses.specs.Uses.{array_elements, channel_elements, channel_uses, element_bytes, element_uses, expression_uses, guard_uses, inside_number, loop_uses, made_usage, own_uses, part_usage, target_uses, variable_usage, whole_usage};

use crate::subscripts::{LoopIndex, SubscriptValues, subscript_values};
use crate::usage::{Usage, UsageWay};
use occam_core::{
    CoreArray, CoreChannel, CoreGuard, CorePlace, CoreProcess, ElementKind, Expression,
};
use std::alloc::AllocError;

/// Elements of an array as bytes or channels. The numbers of element k are `size`, from `first` + `size` * k on.
#[derive(Clone, Copy)]
pub struct Elements {
    pub first: u64,
    pub size: u64,
    pub count: u32,
}

// A use of a variable.
fn variable_usage(place: CorePlace, way: UsageWay, v: u64) -> Usage
    requires { v ≤ 2 ^ 32 }
    ensures { result ≡ variable_usage place way v }
{
    Usage {
        way,
        first: 4 * v,
        end: 4 * v + 4,
        is_known: true,
        place,
    }
}

// How many bytes an element has.
fn element_bytes(kind: ElementKind) -> u64
    ensures bytes { result ≡ element_bytes kind }
    ensures most { result ≤ 4 }
{
    match kind {
        ElementKind::Byte => 1,
        ElementKind::Word => 4,
    }
}

// The bytes of an array's elements.
fn array_elements(array: CoreArray) -> Elements
    ensures elements { result ≡ array_elements array }
    ensures first { result.first ≤ 2 ^ 34 }
    ensures size { result.size ≤ 4 }
{
    Elements {
        first: 4 * u64::from(array.first),
        size: element_bytes(array.kind),
        count: array.length,
    }
}

// The number of the channel that is this variable.
pub(crate) fn inside_number(v: u32) -> u64
    ensures number { result ≡ inside_number v }
    ensures most { result ≤ 2 ^ 33 }
{
    256 + u64::from(v)
}

// The channels from that of a variable on.
fn channel_elements(first: u32, count: u32) -> Elements
    ensures elements { result ≡ record { first = inside_number first; size = 1; count = count } }
    ensures first { result.first ≤ 2 ^ 34 }
    ensures size { result.size ≤ 4 }
{
    Elements {
        first: inside_number(first),
        size: 1,
        count,
    }
}

// A use of the elements from one up to another, which isn't one of them.
fn part_usage(
    place: CorePlace,
    way: UsageWay,
    elements: Elements,
    is_known: bool,
    from: u64,
    to: u64,
) -> Usage
    requires first { elements.first ≤ 2 ^ 34 }
    requires size { elements.size ≤ 4 }
    requires from { from ≤ 2 ^ 33 }
    requires to { to ≤ 2 ^ 33 }
    ensures { result ≡ part_usage place way elements is_known from to }
{
    Usage {
        way,
        first: elements.first + elements.size * from,
        end: elements.first + elements.size * to,
        is_known,
        place,
    }
}

// A use of a whole array.
fn whole_usage(place: CorePlace, way: UsageWay, elements: Elements) -> Usage
    requires first { elements.first ≤ 2 ^ 34 }
    requires size { elements.size ≤ 4 }
    ensures { result ≡ whole_usage place way elements }
{
    part_usage(place, way, elements, true, 0, u64::from(elements.count))
}

// Appends the uses of an element.
fn put_element(
    uses: &mut Vec<Usage>,
    place: CorePlace,
    way: UsageWay,
    elements: Elements,
    values: Option<SubscriptValues>,
) -> Result<(), AllocError>
    requires first { elements.first ≤ 2 ^ 34 }
    requires size { elements.size ≤ 4 }
    ensures { OnOk result (uses.new.items ≡ uses.old.items ++ element_uses place way elements values) }
{
    let count = u64::from(elements.count);
    match values {
        None => uses.push(part_usage(place, way, elements, false, 0, count))?,
        Some(values) => {
            let first = u64::from(values.first);
            let end = first + u64::from(values.count);
            let past = end.saturating_sub(1 << 32);
            uses.push(part_usage(place, way, elements, true, first, end.min(count)))?;
            uses.push(part_usage(place, way, elements, true, 0, past.min(count)))?;
        }
    }
    Ok(())
}

// Appends what an expression uses.
fn put_expression(
    uses: &mut Vec<Usage>,
    place: CorePlace,
    indices: &[LoopIndex],
    e: &Expression,
) -> Result<(), AllocError>
    ensures { OnOk result (uses.new.items ≡ uses.old.items ++ expression_uses place indices.now e.now) }
{
    match e {
        Expression::Number(_) => Ok(()),
        Expression::Variable(v) => {
            uses.push(variable_usage(place, UsageWay::Reads, u64::from(*v)))?;
            Ok(())
        }
        Expression::Element(array, i) => {
            let values = subscript_values(indices, i);
            put_element(uses, place, UsageWay::Reads, array_elements(*array), values)?;
            put_expression(uses, place, indices, i)
        }
        Expression::One(_, e) | Expression::Below(_, e) => put_expression(uses, place, indices, e),
        Expression::Two(_, left, right)
        | Expression::And(left, right)
        | Expression::Or(left, right) => {
            put_expression(uses, place, indices, left)?;
            put_expression(uses, place, indices, right)
        }
    }
}

// Appends what an element uses that is changed.
fn put_target(
    uses: &mut Vec<Usage>,
    place: CorePlace,
    indices: &[LoopIndex],
    array: CoreArray,
    i: &Expression,
) -> Result<(), AllocError>
    ensures { OnOk result (uses.new.items ≡ uses.old.items ++ target_uses place indices.now array i.now) }
{
    let values = subscript_values(indices, i);
    put_element(
        uses,
        place,
        UsageWay::Changes,
        array_elements(array),
        values,
    )?;
    put_expression(uses, place, indices, i)
}

// Appends what a channel uses by which is sent or received.
fn put_channel(
    uses: &mut Vec<Usage>,
    place: CorePlace,
    indices: &[LoopIndex],
    way: UsageWay,
    channel: &CoreChannel,
) -> Result<(), AllocError>
    ensures { OnOk result (uses.new.items ≡ uses.old.items ++ channel_uses place indices.now way channel.now) }
{
    match channel {
        CoreChannel::Link(number) => put_one_channel(uses, place, way, u64::from(*number)),
        CoreChannel::Inside(v) => put_one_channel(uses, place, way, inside_number(*v)),
        CoreChannel::Element(array, i) => {
            let values = subscript_values(indices, i);
            let elements = channel_elements(array.first, array.length);
            put_element(uses, place, way, elements, values)?;
            put_expression(uses, place, indices, i)
        }
    }
}

// Appends the use of the channel of this number.
fn put_one_channel(
    uses: &mut Vec<Usage>,
    place: CorePlace,
    way: UsageWay,
    number: u64,
) -> Result<(), AllocError>
    requires { number ≤ 2 ^ 33 }
    ensures { OnOk result (uses.new.items ≡ uses.old.items ++ record { way = way; first = number; end = number + 1; is_known = true; place = place } ∷ []) }
{
    uses.push(Usage {
        way,
        first: number,
        end: number + 1,
        is_known: true,
        place,
    })?;
    Ok(())
}

// Appends what a guard uses.
fn put_guard(
    uses: &mut Vec<Usage>,
    place: CorePlace,
    indices: &[LoopIndex],
    guard: &CoreGuard,
) -> Result<(), AllocError>
    ensures { OnOk result (uses.new.items ≡ uses.old.items ++ guard_uses place indices.now guard.now) }
{
    match guard {
        CoreGuard::Input(condition, channel) => {
            put_expression(uses, place, indices, condition)?;
            put_channel(uses, place, indices, UsageWay::Receives, channel)
        }
        CoreGuard::Skip(condition) => put_expression(uses, place, indices, condition),
    }
}

// Appends what the index, the count and the bounds of a loop use.
fn put_loop(
    uses: &mut Vec<Usage>,
    place: CorePlace,
    indices: &[LoopIndex],
    v: u32,
    base: &Expression,
    count: &Expression,
) -> Result<(), AllocError>
    ensures { OnOk result (uses.new.items ≡ uses.old.items ++ loop_uses place indices.now v base.now count.now) }
{
    let index = u64::from(v);
    uses.push(variable_usage(place, UsageWay::Changes, index))?;
    uses.push(variable_usage(place, UsageWay::Changes, index + 1))?;
    put_expression(uses, place, indices, base)?;
    put_expression(uses, place, indices, count)
}

/// Appends what a process uses apart from the processes in it, in the order of the text. Its statement begins at `place`,
/// and `indices` are those of the loops around it.
///
/// # Errors
///
/// If the uses can't be kept. Some of them may have been appended then.
pub(crate) fn put_own_uses(
    uses: &mut Vec<Usage>,
    place: CorePlace,
    indices: &[LoopIndex],
    p: &CoreProcess,
) -> Result<(), AllocError>
    ensures { OnOk result (uses.new.items ≡ uses.old.items ++ own_uses place indices.now p.now) }
{
    match p {
        CoreProcess::Assign(v, e) => {
            uses.push(variable_usage(place, UsageWay::Changes, u64::from(*v)))?;
            put_expression(uses, place, indices, e)
        }
        CoreProcess::AssignElement(array, i, e) => {
            put_target(uses, place, indices, *array, i)?;
            put_expression(uses, place, indices, e)
        }
        CoreProcess::Copy(to, from) => {
            uses.push(whole_usage(place, UsageWay::Changes, array_elements(*to)))?;
            uses.push(whole_usage(place, UsageWay::Reads, array_elements(*from)))?;
            Ok(())
        }
        CoreProcess::Channels(first, count) => {
            let channels = channel_elements(*first, *count);
            uses.push(whole_usage(place, UsageWay::Sends, channels))?;
            uses.push(whole_usage(place, UsageWay::Receives, channels))?;
            Ok(())
        }
        CoreProcess::Input(channel, _, v) => {
            put_channel(uses, place, indices, UsageWay::Receives, channel)?;
            uses.push(variable_usage(place, UsageWay::Changes, u64::from(*v)))?;
            Ok(())
        }
        CoreProcess::InputElement(channel, array, i) => {
            put_channel(uses, place, indices, UsageWay::Receives, channel)?;
            put_target(uses, place, indices, *array, i)
        }
        CoreProcess::InputArray(channel, array) => {
            put_channel(uses, place, indices, UsageWay::Receives, channel)?;
            uses.push(whole_usage(place, UsageWay::Changes, array_elements(*array)))?;
            Ok(())
        }
        CoreProcess::Output(channel, _, e) => {
            put_channel(uses, place, indices, UsageWay::Sends, channel)?;
            put_expression(uses, place, indices, e)
        }
        CoreProcess::OutputArray(channel, array) => {
            put_channel(uses, place, indices, UsageWay::Sends, channel)?;
            uses.push(whole_usage(place, UsageWay::Reads, array_elements(*array)))?;
            Ok(())
        }
        CoreProcess::Choose(guard, _, _) => put_guard(uses, place, indices, guard),
        CoreProcess::If(e, _, _) | CoreProcess::While(e, _) => {
            put_expression(uses, place, indices, e)
        }
        CoreProcess::Repeat(v, base, count, _) => put_loop(uses, place, indices, *v, base, count),
        _ => Ok(()),
    }
}
