//! Jumps, calls and loops.

ghost use Rattle.std.specs.Prelude.{◌≡◌, List, ℕ};

use crate::cpu::Cpu;
use crate::next::Next;
use node_memory::{Fault, Memory, signed};
use t414_decode::PlainOperation;

#[tactic(auto, unfolding(crate::specs::Rows::row))]
impl Cpu {
    ghost use Rattle.t414_decode.specs.declared.instruction.PlainOperation.TheVariants as op;
    ghost use Rattle.t414_step.specs.Next.{KeepsTurn, back_after, completed, counted_down};
    ghost use Rattle.node_memory.specs.Effect.{Gave};
    ghost use Rattle.t414_step.specs.Answers.{finished};
    ghost use Rattle.link_channels.specs.declared.link.FourLinks.{FourLinks};
    ghost use Rattle.t414_step.specs.Rows.{row};

    // gcall
    #[inline]
    pub(crate) fn general_call(&mut self)
        ensures { (ls : FourLinks) (m : List ℕ) → Gave self.new ls m ≡ row op.GeneralCall self.old ls m }
    {
        let target = self.a;
        self.a = self.instruction;
        self.instruction = target;
    }

    // ret
    #[inline(always)]
    pub(crate) fn return_from_call(&mut self, memory: &Memory) -> Result<(), Fault>
        ensures answer { (ls : FourLinks) → finished result self.new ls memory.now ≡ row op.Return self.old ls memory.now }
        ensures kept { KeepsTurn self.old self.new }
    {
        self.instruction = memory.word(self.workspace)?;
        self.set_workspace(self.workspace.wrapping_add(16));
        Ok(())
    }

    // lend, up to the count: the index that is to be stored if it goes back
    #[inline(always)]
    fn count_down(&self, memory: &mut Memory) -> Result<Option<u32>, Fault>
        ensures { (ls : FourLinks) → counted_down result self.now ls memory.new ≡ row op.LoopEnd self.now ls memory.old }
    {
        let counter = self.b.wrapping_add(4);
        let count = memory.word(counter)?;
        memory.set_word(counter, count.wrapping_sub(1))?;
        if signed(count) <= 1 {
            return Ok(None);
        }
        let index = memory.word(self.b)?;
        Ok(Some(index.wrapping_add(1)))
    }

    // lend, as far as it stores no word that isn't kept yet
    #[inline(always)]
    pub(crate) fn turn_back(&mut self, memory: &mut Memory) -> Next
        ensures answer { (ls : FourLinks) → completed result self.new ls memory.new ≡ row op.LoopEnd self.old ls memory.old }
        ensures kept { KeepsTurn self.old self.new }
    {
        if !memory.keeps(self.b.wrapping_add(4)) {
            return Next::Plain(PlainOperation::LoopEnd);
        }
        match self.count_down(memory) {
            Ok(Some(index)) => self.store_index(memory, index),
            Ok(None) => Next::Byte,
            Err(fault) => Next::Fault(fault),
        }
    }

    // The end of lend without the slice, if the index is kept.
    #[inline(always)]
    fn store_index(&mut self, memory: &mut Memory, index: u32) -> Next
        ensures answer { (ls : FourLinks) → completed result self.new ls memory.new ≡ back_after index self.old ls memory.old }
        ensures kept { KeepsTurn self.old self.new }
    {
        if !memory.keeps(self.b) {
            return Next::Index(index);
        }
        match memory.set_word(self.b, index) {
            Ok(()) => {
                self.instruction = self.instruction.wrapping_sub(self.a);
                Next::Jumped
            }
            Err(fault) => Next::Fault(fault),
        }
    }

    // The end of lend.
    #[inline(always)]
    pub(crate) fn go_back(&mut self, memory: &mut Memory, index: u32) -> Result<(), Fault>
        ensures { (ls : FourLinks) → finished result self.new ls memory.new ≡ back_after index self.old ls memory.old }
    {
        memory.set_word(self.b, index)?;
        self.instruction = self.instruction.wrapping_sub(self.a);
        self.slice(memory)
    }

    // lend
    #[inline]
    pub(crate) fn loop_end(&mut self, memory: &mut Memory) -> Result<(), Fault>
        ensures { (ls : FourLinks) → finished result self.new ls memory.new ≡ row op.LoopEnd self.old ls memory.old }
    {
        match self.count_down(memory)? {
            Some(index) => self.go_back(memory, index),
            None => Ok(()),
        }
    }

    // gajw
    #[inline]
    pub(crate) fn general_adjust_workspace(&mut self)
        ensures { (ls : FourLinks) (m : List ℕ) → Gave self.new ls m ≡ row op.GeneralAdjustWorkspace self.old ls m }
    {
        let target = self.a;
        self.a = self.workspace;
        self.set_workspace(target);
    }

    // altend
    #[inline]
    pub(crate) fn alt_end(&mut self, memory: &Memory) -> Result<(), Fault>
        ensures { (ls : FourLinks) → finished result self.new ls memory.now ≡ row op.AltEnd self.old ls memory.now }
    {
        let offset = memory.word(self.workspace)?;
        self.instruction = self.instruction.wrapping_add(offset);
        Ok(())
    }
}
