//! From rows to trees.

use crate::fault::{OccamFault, RowList, UnitFault};
use crate::rows::{ArrayRow, ChannelRow, ExpressionRow, GuardRow, ProcessRow};
use occam_core::{CoreArray, CoreChannel, CoreGuard, CorePlace, CoreProcess, Expression};
use std::alloc::Global;

// How deep a tree is at most. A text of 64 levels is some 1,300 deep, and each IF or ALT is deeper by its choices, 1,000 at most.
const MOST_DEPTH: u32 = 5_000;

/// The trees of rows, as far as they are read.
pub(crate) struct TreeBuilder {
    alloc: Global,
    // The trees that no row names yet, and how deep each is.
    expressions: Vec<Option<Box<Expression>>>,
    expression_depths: Vec<u32>,
    processes: Vec<Option<Box<CoreProcess>>>,
    process_depths: Vec<u32>,
}

// Dropped by hand, since a derived `Drop` makes callers prove the drop of each field.
impl Drop for TreeBuilder {
    fn drop(self) {
        let TreeBuilder {
            alloc: _,
            expressions: _,
            expression_depths: _,
            processes: _,
            process_depths: _,
        } = self;
    }
}

// The deepest of trees that were taken for a row.
#[derive(Clone, Copy)]
struct Depth(u32);

impl Depth {
    fn note(&mut self, depths: &[u32], index: u32) {
        self.0 = self.0.max(depths.get(index as usize).copied().unwrap_or(0));
    }
}

fn array_of(row: ArrayRow) -> CoreArray {
    let ArrayRow(first, length, kind) = row;
    CoreArray {
        first,
        length,
        kind,
    }
}

// The tree of a row, if no row has taken it yet.
fn tree_of<T>(trees: &mut [Option<Box<T>>], index: u32) -> Option<Box<T>> {
    trees.get_mut(index as usize)?.take()
}

impl TreeBuilder {
    pub fn new(alloc: Global) -> TreeBuilder {
        TreeBuilder {
            alloc,
            expressions: Vec::new(alloc),
            expression_depths: Vec::new(alloc),
            processes: Vec::new(alloc),
            process_depths: Vec::new(alloc),
        }
    }

    /// Reads the next row of expressions.
    pub fn add_expression(&mut self, row: ExpressionRow) -> Result<(), OccamFault> {
        let index = self.expressions.len();
        let mut depth = Depth(0);
        let Some(expression) = self.expression_of(row, &mut depth) else {
            return Err(UnitFault::Row(RowList::Expressions, index).into());
        };
        if depth.0 >= MOST_DEPTH {
            return Err(UnitFault::Depth(RowList::Expressions, index).into());
        }
        let expression = Box::new(self.alloc, expression)?;
        self.expressions.push(Some(expression))?;
        Ok(self.expression_depths.push(depth.0 + 1)?)
    }

    /// Reads the next row of processes.
    pub fn add_process(&mut self, row: ProcessRow) -> Result<(), OccamFault> {
        let index = self.processes.len();
        let mut depth = Depth(0);
        let Some(process) = self.process_of(row, &mut depth) else {
            return Err(UnitFault::Row(RowList::Processes, index).into());
        };
        if depth.0 >= MOST_DEPTH {
            return Err(UnitFault::Depth(RowList::Processes, index).into());
        }
        let process = Box::new(self.alloc, process)?;
        self.processes.push(Some(process))?;
        Ok(self.process_depths.push(depth.0 + 1)?)
    }

    /// The process of the last row, if each other row is named by one after it.
    pub fn finish(mut self) -> Result<Box<CoreProcess>, UnitFault> {
        let Some(Some(process)) = self.processes.pop() else {
            return Err(UnitFault::Empty);
        };
        if let Some(index) = self.expressions.iter().position(|it| it.is_some()) {
            return Err(UnitFault::Unnamed(RowList::Expressions, index));
        }
        match self.processes.iter().position(|it| it.is_some()) {
            Some(index) => Err(UnitFault::Unnamed(RowList::Processes, index)),
            None => Ok(process),
        }
    }

    // An expression that a row names, unless another has.
    fn take_expression(&mut self, index: u32, depth: &mut Depth) -> Option<Box<Expression>> {
        depth.note(self.expression_depths.as_slice(), index);
        tree_of(self.expressions.as_mut_slice(), index)
    }

    // The same where it isn't in a box.
    fn take_value(&mut self, index: u32, depth: &mut Depth) -> Option<Expression> {
        Some(Box::into_inner(self.take_expression(index, depth)?))
    }

    // A process that a row names, unless another has.
    fn take_process(&mut self, index: u32, depth: &mut Depth) -> Option<Box<CoreProcess>> {
        depth.note(self.process_depths.as_slice(), index);
        tree_of(self.processes.as_mut_slice(), index)
    }

    fn expression_of(&mut self, row: ExpressionRow, depth: &mut Depth) -> Option<Expression> {
        Some(match row {
            ExpressionRow::Number(number) => Expression::Number(number),
            ExpressionRow::Variable(number) => Expression::Variable(number),
            ExpressionRow::Element(array, i) => {
                Expression::Element(array_of(array), self.take_expression(i, depth)?)
            }
            ExpressionRow::One(operation, a) => {
                Expression::One(operation, self.take_expression(a, depth)?)
            }
            ExpressionRow::Below(bound, a) => {
                Expression::Below(bound, self.take_expression(a, depth)?)
            }
            ExpressionRow::Two(operation, a, b) => {
                let (a, b) = self.take_expressions(a, b, depth)?;
                Expression::Two(operation, a, b)
            }
            ExpressionRow::And(a, b) => {
                let (a, b) = self.take_expressions(a, b, depth)?;
                Expression::And(a, b)
            }
            ExpressionRow::Or(a, b) => {
                let (a, b) = self.take_expressions(a, b, depth)?;
                Expression::Or(a, b)
            }
        })
    }

    // Two expressions that a row names.
    fn take_expressions(
        &mut self,
        a: u32,
        b: u32,
        depth: &mut Depth,
    ) -> Option<(Box<Expression>, Box<Expression>)> {
        let a = self.take_expression(a, depth)?;
        let b = self.take_expression(b, depth)?;
        Some((a, b))
    }

    // Two processes that a row names.
    fn take_processes(
        &mut self,
        p: u32,
        q: u32,
        depth: &mut Depth,
    ) -> Option<(Box<CoreProcess>, Box<CoreProcess>)> {
        let p = self.take_process(p, depth)?;
        let q = self.take_process(q, depth)?;
        Some((p, q))
    }

    fn channel_of(&mut self, row: ChannelRow, depth: &mut Depth) -> Option<CoreChannel> {
        Some(match row {
            ChannelRow::Link(number) => CoreChannel::Link(number),
            ChannelRow::Inside(number) => CoreChannel::Inside(number),
            ChannelRow::Element(array, i) => {
                CoreChannel::Element(array_of(array), self.take_value(i, depth)?)
            }
        })
    }

    fn guard_of(&mut self, row: GuardRow, depth: &mut Depth) -> Option<CoreGuard> {
        match row {
            GuardRow::Input(condition, channel) => {
                let condition = self.take_value(condition, depth)?;
                Some(CoreGuard::Input(condition, self.channel_of(channel, depth)?))
            }
            GuardRow::Skip(condition) => {
                Some(CoreGuard::Skip(self.take_value(condition, depth)?))
            }
        }
    }

    fn process_of(&mut self, row: ProcessRow, depth: &mut Depth) -> Option<CoreProcess> {
        match row {
            ProcessRow::Skip => Some(CoreProcess::Skip),
            ProcessRow::Stop => Some(CoreProcess::Stop),
            ProcessRow::Copy(to, from) => Some(CoreProcess::Copy(array_of(to), array_of(from))),
            ProcessRow::Channels(first, count) => Some(CoreProcess::Channels(first, count)),
            ProcessRow::Assign(v, e) => Some(CoreProcess::Assign(v, self.take_value(e, depth)?)),
            ProcessRow::AssignElement(array, i, e) => self.element_of(array, i, e, depth),
            ProcessRow::Input(..)
            | ProcessRow::InputElement(..)
            | ProcessRow::InputArray(..)
            | ProcessRow::Output(..)
            | ProcessRow::OutputArray(..) => self.message_of(row, depth),
            _ => self.construct_of(row, depth),
        }
    }

    fn element_of(
        &mut self,
        array: ArrayRow,
        i: u32,
        e: u32,
        depth: &mut Depth,
    ) -> Option<CoreProcess> {
        let i = self.take_value(i, depth)?;
        let e = self.take_value(e, depth)?;
        Some(CoreProcess::AssignElement(array_of(array), i, e))
    }

    // A process that sends or receives.
    fn message_of(&mut self, row: ProcessRow, depth: &mut Depth) -> Option<CoreProcess> {
        match row {
            ProcessRow::Input(channel, kind, v) => {
                let channel = self.channel_of(channel, depth)?;
                Some(CoreProcess::Input(channel, kind, v))
            }
            ProcessRow::InputElement(channel, array, i) => {
                let channel = self.channel_of(channel, depth)?;
                let i = self.take_value(i, depth)?;
                Some(CoreProcess::InputElement(channel, array_of(array), i))
            }
            ProcessRow::InputArray(channel, array) => {
                let channel = self.channel_of(channel, depth)?;
                Some(CoreProcess::InputArray(channel, array_of(array)))
            }
            ProcessRow::Output(channel, kind, e) => {
                let channel = self.channel_of(channel, depth)?;
                let e = self.take_value(e, depth)?;
                Some(CoreProcess::Output(channel, kind, e))
            }
            ProcessRow::OutputArray(channel, array) => {
                let channel = self.channel_of(channel, depth)?;
                Some(CoreProcess::OutputArray(channel, array_of(array)))
            }
            _ => None,
        }
    }

    // A process that has others.
    fn construct_of(&mut self, row: ProcessRow, depth: &mut Depth) -> Option<CoreProcess> {
        match row {
            ProcessRow::Line(line, column, p) => {
                let place = CorePlace { line, column };
                Some(CoreProcess::Line(place, self.take_process(p, depth)?))
            }
            ProcessRow::Sequence(p, q) => {
                let (p, q) = self.take_processes(p, q, depth)?;
                Some(CoreProcess::Sequence(p, q))
            }
            ProcessRow::Parallel(p, q) => {
                let (p, q) = self.take_processes(p, q, depth)?;
                Some(CoreProcess::Parallel(p, q))
            }
            ProcessRow::Choose(guard, p, q) => {
                let guard = self.guard_of(guard, depth)?;
                let (p, q) = self.take_processes(p, q, depth)?;
                Some(CoreProcess::Choose(guard, p, q))
            }
            ProcessRow::If(e, p, q) => {
                let e = self.take_value(e, depth)?;
                let (p, q) = self.take_processes(p, q, depth)?;
                Some(CoreProcess::If(e, p, q))
            }
            ProcessRow::While(e, p) => {
                let e = self.take_value(e, depth)?;
                Some(CoreProcess::While(e, self.take_process(p, depth)?))
            }
            ProcessRow::Repeat(v, base, count, p) => self.loop_of(v, base, count, p, depth),
            _ => None,
        }
    }

    fn loop_of(
        &mut self,
        v: u32,
        base: u32,
        count: u32,
        p: u32,
        depth: &mut Depth,
    ) -> Option<CoreProcess> {
        let base = self.take_value(base, depth)?;
        let count = self.take_value(count, depth)?;
        Some(CoreProcess::Repeat(v, base, count, self.take_process(p, depth)?))
    }
}
