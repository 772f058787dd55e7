//! The first clash of a process.
ghost use Rattle.std.specs.Prelude.{◌≡◌, ◌≤◌, ◌&&◌, [], ◌∷◌, ◌++◌, IfOk, OnOk, is_none, length, drop, slice_range};
ghost use Rattle.occam_uses.specs.Uses.{are_apart, is_clash, is_used_well, loop_index, process_uses};
ghost use Rattle.occam_uses.specs.Sets.{AreMarksOf, StaysNone, is_component_well};

use crate::clash::Clash;
use crate::gathering::put_own_uses;
use crate::marks::UsageMarks;
use crate::subscripts::{LoopIndex, loop_values};
use crate::usage::Usage;
use occam_core::{CorePlace, CoreProcess};
use std::alloc::{AllocError, Global};

// Where a process begins that has no line.
const START: CorePlace = CorePlace { line: 1, column: 1 };

// A clash, and where its later use is among all uses.
#[derive(Clone, Copy)]
struct PlacedClash {
    index: usize,
    clash: Clash,
}

// What was met on the way through a process: all uses, and the first that clashes with one before it.
#[derive(Drop)]
struct UsageWalk {
    alloc: Global,
    uses: Vec<Usage>,
    clash: Option<PlacedClash>,
}

/// Looks for two uses of the same bytes or channels that processes may make at the same time, and must not. Of all such
/// uses it is the first in the order of the text that clashes with one before it, and the first of those before it.
///
/// # Errors
///
/// If there is no memory for what is used.
///
/// Source: occam 2 reference manual, parallel.
pub fn find_clash(alloc: Global, p: &CoreProcess) -> Result<Option<Clash>, AllocError>
    ensures { IfOk result (λ clash. is_none clash ≡ is_used_well START [] p.now) }
{
    let mut walk = UsageWalk {
        alloc,
        uses: Vec::new(alloc),
        clash: None,
    };
    walk.go_through(START, &[], p)?;
    Ok(walk.clash.map(|placed| placed.clash))
}

impl UsageWalk {
    // Appends what a process uses, which begins at this place and is in loops with these indices.
    #[cycle(walk)]
    fn go_through(
        &mut self,
        place: CorePlace,
        indices: &[LoopIndex],
        p: &CoreProcess,
    ) -> Result<(), AllocError>
        ensures uses { OnOk result (self.new.uses.items ≡ self.old.uses.items ++ process_uses place indices.now p.now) }
        ensures clash { OnOk result (StaysNone self.old.clash self.new.clash (is_used_well place indices.now p.now)) }
    {
        put_own_uses(&mut self.uses, place, indices, p)?;
        match p {
            CoreProcess::Line(line, p) => self.go_through(*line, indices, p),
            CoreProcess::Parallel(p, q) => {
                let group = self.uses.len();
                let mut before = UsageMarks::new(self.alloc);
                self.go_through(place, indices, p)?;
                before.add_all(&self.uses[group..])?;
                self.go_through_others(place, indices, &mut before, group, q)
            }
            CoreProcess::Sequence(p, q) | CoreProcess::Choose(_, p, q) | CoreProcess::If(_, p, q) =>
                {
                    self.go_through(place, indices, p)?;
                    self.go_through(place, indices, q)
                }
            CoreProcess::While(_, p) => self.go_through(place, indices, p),
            CoreProcess::Repeat(v, base, count, p) => {
                let mut inner = Vec::from_slice(self.alloc, indices)?;
                inner.push(LoopIndex {
                    variable: *v,
                    values: loop_values(base, count),
                })?;
                self.go_through(place, inner.as_slice(), p)
            }
            _ => Ok(()),
        }
    }

    // The same of components of a PAR. Those before them made the uses from `group` on, which have these marks.
    #[cycle(walk)]
    fn go_through_others(
        &mut self,
        place: CorePlace,
        indices: &[LoopIndex],
        before: &mut UsageMarks,
        group: usize,
        p: &CoreProcess,
    ) -> Result<(), AllocError>
        requires group { group ≤ length self.old.uses.items }
        requires marks { AreMarksOf (drop group self.old.uses.items) before.old }
        ensures uses { OnOk result (self.new.uses.items ≡ self.old.uses.items ++ process_uses place indices.now p.now) }
        ensures clash { OnOk result (StaysNone self.old.clash self.new.clash (is_component_well (drop group self.old.uses.items) place indices.now p.now)) }
    {
        match p {
            CoreProcess::Parallel(p, q) => {
                let start = self.uses.len();
                self.go_through_next(place, indices, before, group, p)?;
                before.add_all(&self.uses[start..])?;
                self.go_through_others(place, indices, before, group, q)
            }
            _ => self.go_through_next(place, indices, before, group, p),
        }
    }

    // The same of one component.
    #[cycle(walk)]
    fn go_through_next(
        &mut self,
        place: CorePlace,
        indices: &[LoopIndex],
        before: &UsageMarks,
        group: usize,
        p: &CoreProcess,
    ) -> Result<(), AllocError>
        requires group { group ≤ length self.old.uses.items }
        requires marks { AreMarksOf (drop group self.old.uses.items) before.now }
        ensures uses { OnOk result (self.new.uses.items ≡ self.old.uses.items ++ process_uses place indices.now p.now) }
        ensures clash { OnOk result (StaysNone self.old.clash self.new.clash (is_component_well (drop group self.old.uses.items) place indices.now p.now)) }
    {
        let start = self.uses.len();
        self.go_through(place, indices, p)?;
        let clash = first_clash(before, &self.uses[group..start], &self.uses[start..]);
        self.note(start, clash);
        Ok(())
    }

    // Notes a clash, unless one was noted whose later use is before it. Its index is counted from `start` on.
    fn note(&mut self, start: usize, clash: Option<PlacedClash>)
        ensures uses { self.new.uses ≡ self.old.uses }
        ensures clash { StaysNone self.old.clash self.new.clash (is_none clash) }
    {
        let Some(PlacedClash { index, clash }) = clash else {
            return;
        };
        let index = start.saturating_add(index);
        if self.clash.is_none_or(|placed| index <= placed.index) {
            self.clash = Some(PlacedClash { index, clash });
        }
    }
}

// The first of the later uses that clashes with one of the earlier, which have these marks.
fn first_clash(before: &UsageMarks, earlier: &[Usage], later: &[Usage]) -> Option<PlacedClash>
    requires { AreMarksOf earlier.now before.now }
    ensures { is_none result ≡ are_apart earlier.now later.now }
{
    for (index, used) in later.iter().enumerate() {
        if before.are_in_the_way_of(*used) {
            let clash = Clash {
                earlier: first_with(earlier, *used),
                later: *used,
            };
            return Some(PlacedClash { index, clash });
        }
    }
    None
}

// The first of the uses that clashes with another, which one of them does.
fn first_with(uses: &[Usage], other: Usage) -> Usage {
    let mut with = uses.iter().filter(|used| used.clashes_with(other));
    with.next().copied().unwrap_or(other)
}
