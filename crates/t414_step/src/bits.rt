//! Bits of words, and shifts.

ghost use Rattle.std.specs.Prelude.{◌≡◌, List, ℕ};

use crate::cpu::Cpu;

#[tactic(auto, unfolding(crate::specs::Rows::row))]
impl Cpu {
    ghost use Rattle.t414_decode.specs.declared.instruction.PlainOperation.TheVariants as op;
    ghost use Rattle.t414_step.specs.Next.{KeepsTurn};
    ghost use Rattle.node_memory.specs.Effect.{Gave};
    ghost use Rattle.link_channels.specs.declared.link.FourLinks.{FourLinks};
    ghost use Rattle.t414_step.specs.Rows.{row};

    // and
    #[inline(always)]
    pub(crate) fn and(&mut self)
        ensures answer { (ls : FourLinks) (m : List ℕ) → Gave self.new ls m ≡ row op.And self.old ls m }
        ensures kept { KeepsTurn self.old self.new }
    {
        self.binary(self.b & self.a);
    }

    // or
    #[inline(always)]
    pub(crate) fn or(&mut self)
        ensures answer { (ls : FourLinks) (m : List ℕ) → Gave self.new ls m ≡ row op.Or self.old ls m }
        ensures kept { KeepsTurn self.old self.new }
    {
        self.binary(self.b | self.a);
    }

    // xor
    #[inline(always)]
    pub(crate) fn exclusive_or(&mut self)
        ensures answer { (ls : FourLinks) (m : List ℕ) → Gave self.new ls m ≡ row op.ExclusiveOr self.old ls m }
        ensures kept { KeepsTurn self.old self.new }
    {
        self.binary(self.b ^ self.a);
    }

    // not
    #[inline(always)]
    pub(crate) fn not(&mut self)
        ensures answer { (ls : FourLinks) (m : List ℕ) → Gave self.new ls m ≡ row op.Not self.old ls m }
        ensures kept { KeepsTurn self.old self.new }
    {
        self.a = !self.a;
    }

    // shl
    #[inline(always)]
    pub(crate) fn shift_left(&mut self)
        ensures answer { (ls : FourLinks) (m : List ℕ) → Gave self.new ls m ≡ row op.ShiftLeft self.old ls m }
        ensures kept { KeepsTurn self.old self.new }
    {
        self.binary(self.b.checked_shl(self.a).unwrap_or(0));
    }

    // shr
    #[inline(always)]
    pub(crate) fn shift_right(&mut self)
        ensures answer { (ls : FourLinks) (m : List ℕ) → Gave self.new ls m ≡ row op.ShiftRight self.old ls m }
        ensures kept { KeepsTurn self.old self.new }
    {
        self.binary(self.b.checked_shr(self.a).unwrap_or(0));
    }
}
