//! A unit as JSON has it: its trees are rows, in which a part is named by its place among the rows before it.

use crate::unit::{UnitInstance, UnitLink, UnitProcedure, UnitVariable};
use occam_core::{ElementKind, MessageKind, OneOperation, TwoOperation};
use serde::Deserialize;

/// The number of the first variable, how many elements there are, and how they are kept.
#[derive(Clone, Copy, Drop, Deserialize)]
pub(crate) struct ArrayRow(pub u32, pub u32, pub ElementKind);

#[derive(Clone, Copy, Drop, Deserialize)]
pub(crate) enum ExpressionRow {
    Number(u32),
    Variable(u32),
    Element(ArrayRow, u32),
    One(OneOperation, u32),
    Two(TwoOperation, u32, u32),
    And(u32, u32),
    Or(u32, u32),
    Below(u32, u32),
}

#[derive(Clone, Copy, Drop, Deserialize)]
pub(crate) enum ChannelRow {
    Link(u8),
    Inside(u32),
    Element(ArrayRow, u32),
}

#[derive(Clone, Copy, Drop, Deserialize)]
pub(crate) enum GuardRow {
    Input(u32, ChannelRow),
    Skip(u32),
}

#[derive(Clone, Copy, Drop, Deserialize)]
pub(crate) enum ProcessRow {
    Skip,
    Stop,
    Line(u32, u32, u32),
    Assign(u32, u32),
    AssignElement(ArrayRow, u32, u32),
    Copy(ArrayRow, ArrayRow),
    Channels(u32, u32),
    Input(ChannelRow, MessageKind, u32),
    InputElement(ChannelRow, ArrayRow, u32),
    InputArray(ChannelRow, ArrayRow),
    Output(ChannelRow, MessageKind, u32),
    OutputArray(ChannelRow, ArrayRow),
    Sequence(u32, u32),
    Parallel(u32, u32),
    Choose(GuardRow, u32, u32),
    If(u32, u32, u32),
    While(u32, u32),
    Repeat(u32, u32, u32, u32),
}

/// An operation on constants that the front end evaluated: its operands, and what it gave.
#[derive(Clone, Copy, Drop, Deserialize)]
pub(crate) enum FoldRow {
    One(OneOperation, u32, u32),
    Two(TwoOperation, u32, u32, u32),
}

#[derive(Drop, Deserialize)]
#[serde(deny_unknown_fields)]
pub(crate) struct UnitRows {
    pub version: u32,
    pub text: String,
    pub mistakes: Vec<String>,
    pub warnings: Vec<String>,
    #[serde(default)]
    pub core: Option<String>,
    pub tables: Vec<u32>,
    pub variables: Vec<UnitVariable>,
    pub links: Vec<UnitLink>,
    pub procedures: Vec<UnitProcedure>,
    pub instances: Vec<UnitInstance>,
    pub folds: Vec<FoldRow>,
    pub expressions: Vec<ExpressionRow>,
    pub processes: Vec<ProcessRow>,
}
