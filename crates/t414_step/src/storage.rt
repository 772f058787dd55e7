//! Bytes and blocks of memory.

ghost use Rattle.std.specs.Prelude.{◌≡◌, List, ℕ};

use crate::cpu::Cpu;
use node_memory::{Fault, Memory};

#[tactic(auto, unfolding(crate::specs::Rows::row))]
impl Cpu {
    ghost use Rattle.t414_decode.specs.declared.instruction.PlainOperation.TheVariants as op;
    ghost use Rattle.t414_step.specs.Next.{KeepsTurn};
    ghost use Rattle.node_memory.specs.Effect.{Gave};
    ghost use Rattle.t414_step.specs.Answers.{finished};
    ghost use Rattle.link_channels.specs.declared.link.FourLinks.{FourLinks};
    ghost use Rattle.t414_step.specs.Rows.{row};

    // lb
    #[inline(always)]
    pub(crate) fn load_byte(&mut self, memory: &Memory) -> Result<(), Fault>
        ensures answer { (ls : FourLinks) → finished result self.new ls memory.now ≡ row op.LoadByte self.old ls memory.now }
        ensures kept { KeepsTurn self.old self.new }
    {
        self.a = u32::from(memory.byte(self.a)?);
        Ok(())
    }

    // sb
    #[inline(always)]
    pub(crate) fn store_byte(&mut self, memory: &mut Memory) -> Result<(), Fault>
        ensures answer { (ls : FourLinks) → finished result self.new ls memory.new ≡ row op.StoreByte self.old ls memory.old }
        ensures kept { KeepsTurn self.old self.new }
    {
        memory.set_byte(self.a, (self.b % 0x100) as u8)?;
        self.discard_two();
        Ok(())
    }

    // move
    #[inline]
    pub(crate) fn move_message(&mut self, memory: &mut Memory) -> Result<(), Fault>
        ensures { (ls : FourLinks) → finished result self.new ls memory.new ≡ row op.MoveMessage self.old ls memory.old }
    {
        memory.copy_up(self.c, self.b, self.a)
    }
}
