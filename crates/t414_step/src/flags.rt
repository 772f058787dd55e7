//! The error flags, and checks that set one.

ghost use Rattle.std.specs.Prelude.{◌≡◌, List, ℕ};

use crate::cpu::Cpu;
use node_memory::{Fault, signed};

#[tactic(auto, unfolding(crate::specs::Rows::row))]
impl Cpu {
    ghost use Rattle.t414_decode.specs.declared.instruction.PlainOperation.TheVariants as op;
    ghost use Rattle.t414_step.specs.Next.{KeepsTurn};
    ghost use Rattle.node_memory.specs.Effect.{Gave};
    ghost use Rattle.t414_step.specs.Answers.{finished};
    ghost use Rattle.link_channels.specs.declared.link.FourLinks.{FourLinks};
    ghost use Rattle.t414_step.specs.Rows.{row};

    // seterr
    #[inline]
    pub(crate) fn set_error(&mut self) -> Result<(), Fault>
        ensures { (ls : FourLinks) (m : List ℕ) → finished result self.new ls m ≡ row op.SetError self.old ls m }
    {
        self.raise_if(true)
    }

    // testerr
    #[inline]
    pub(crate) fn test_error(&mut self)
        ensures { (ls : FourLinks) (m : List ℕ) → Gave self.new ls m ≡ row op.TestError self.old ls m }
    {
        self.push(u32::from(!self.error));
        self.error = false;
    }

    // sethalterr
    #[inline]
    pub(crate) fn set_halt_on_error(&mut self)
        ensures { (ls : FourLinks) (m : List ℕ) → Gave self.new ls m ≡ row op.SetHaltOnError self.old ls m }
    {
        self.halt_on_error = true;
    }

    // clrhalterr
    #[inline]
    pub(crate) fn clear_halt_on_error(&mut self)
        ensures { (ls : FourLinks) (m : List ℕ) → Gave self.new ls m ≡ row op.ClearHaltOnError self.old ls m }
    {
        self.halt_on_error = false;
    }

    // testhalterr
    #[inline]
    pub(crate) fn test_halt_on_error(&mut self)
        ensures { (ls : FourLinks) (m : List ℕ) → Gave self.new ls m ≡ row op.TestHaltOnError self.old ls m }
    {
        self.push(u32::from(self.halt_on_error));
    }

    // testpranal
    #[inline]
    pub(crate) fn test_processor_analysing(&mut self)
        ensures { (ls : FourLinks) (m : List ℕ) → Gave self.new ls m ≡ row op.TestProcessorAnalysing self.old ls m }
    {
        self.push(0);
    }

    // csub0
    #[inline(always)]
    pub(crate) fn check_subscript_from_zero(&mut self) -> Result<(), Fault>
        ensures answer { (ls : FourLinks) (m : List ℕ) → finished result self.new ls m ≡ row op.CheckSubscriptFromZero self.old ls m }
        ensures kept { KeepsTurn self.old self.new }
    {
        let raised = self.a <= self.b;
        self.discard();
        self.raise_if(raised)
    }

    // ccnt1
    #[inline]
    pub(crate) fn check_count_from_one(&mut self) -> Result<(), Fault>
        ensures { (ls : FourLinks) (m : List ℕ) → finished result self.new ls m ≡ row op.CheckCountFromOne self.old ls m }
    {
        let raised = self.b == 0 || self.a < self.b;
        self.discard();
        self.raise_if(raised)
    }

    // cword
    #[inline]
    pub(crate) fn check_word(&mut self) -> Result<(), Fault>
        ensures { (ls : FourLinks) (m : List ℕ) → finished result self.new ls m ≡ row op.CheckWord self.old ls m }
    {
        let value = i64::from(signed(self.b));
        let limit = i64::from(signed(self.a));
        self.discard();
        self.raise_if(limit <= value || value < -limit)
    }
}
