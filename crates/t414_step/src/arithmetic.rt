//! Sums, products and comparisons of words.

ghost use Rattle.std.specs.Prelude.{◌≡◌, List, ℕ};

use crate::cpu::Cpu;
use node_memory::{Fault, add_checked, mul_checked, signed, sub_checked};

#[tactic(auto, unfolding(crate::specs::Rows::row))]
impl Cpu {
    ghost use Rattle.t414_decode.specs.declared.instruction.PlainOperation.TheVariants as op;
    ghost use Rattle.t414_step.specs.Next.{KeepsTurn};
    ghost use Rattle.node_memory.specs.Effect.{Gave};
    ghost use Rattle.t414_step.specs.Answers.{finished};
    ghost use Rattle.link_channels.specs.declared.link.FourLinks.{FourLinks};
    ghost use Rattle.t414_step.specs.Rows.{row};

    // rev
    #[inline(always)]
    pub(crate) fn reverse(&mut self)
        ensures answer { (ls : FourLinks) (m : List ℕ) → Gave self.new ls m ≡ row op.Reverse self.old ls m }
        ensures kept { KeepsTurn self.old self.new }
    {
        let a = self.a;
        self.a = self.b;
        self.b = a;
    }

    // bsub
    #[inline(always)]
    pub(crate) fn byte_subscript(&mut self)
        ensures answer { (ls : FourLinks) (m : List ℕ) → Gave self.new ls m ≡ row op.ByteSubscript self.old ls m }
        ensures kept { KeepsTurn self.old self.new }
    {
        self.binary(self.a.wrapping_add(self.b));
    }

    // diff
    #[inline(always)]
    pub(crate) fn difference(&mut self)
        ensures answer { (ls : FourLinks) (m : List ℕ) → Gave self.new ls m ≡ row op.Difference self.old ls m }
        ensures kept { KeepsTurn self.old self.new }
    {
        self.binary(self.b.wrapping_sub(self.a));
    }

    // add
    #[inline(always)]
    pub(crate) fn add(&mut self) -> Result<(), Fault>
        ensures answer { (ls : FourLinks) (m : List ℕ) → finished result self.new ls m ≡ row op.Add self.old ls m }
        ensures kept { KeepsTurn self.old self.new }
    {
        let (sum, overflows) = add_checked(self.b, self.a);
        self.binary(sum);
        self.raise_if(overflows)
    }

    // prod
    #[inline(always)]
    pub(crate) fn product(&mut self)
        ensures answer { (ls : FourLinks) (m : List ℕ) → Gave self.new ls m ≡ row op.Product self.old ls m }
        ensures kept { KeepsTurn self.old self.new }
    {
        self.binary(self.b.wrapping_mul(self.a));
    }

    // gt
    #[inline(always)]
    pub(crate) fn greater_than(&mut self)
        ensures answer { (ls : FourLinks) (m : List ℕ) → Gave self.new ls m ≡ row op.GreaterThan self.old ls m }
        ensures kept { KeepsTurn self.old self.new }
    {
        self.binary(u32::from(signed(self.a) < signed(self.b)));
    }

    // wsub
    #[inline(always)]
    pub(crate) fn word_subscript(&mut self)
        ensures answer { (ls : FourLinks) (m : List ℕ) → Gave self.new ls m ≡ row op.WordSubscript self.old ls m }
        ensures kept { KeepsTurn self.old self.new }
    {
        self.binary(self.a.wrapping_add(4u32.wrapping_mul(self.b)));
    }

    // sub
    #[inline(always)]
    pub(crate) fn subtract(&mut self) -> Result<(), Fault>
        ensures answer { (ls : FourLinks) (m : List ℕ) → finished result self.new ls m ≡ row op.Subtract self.old ls m }
        ensures kept { KeepsTurn self.old self.new }
    {
        let (rest, overflows) = sub_checked(self.b, self.a);
        self.binary(rest);
        self.raise_if(overflows)
    }

    // sum
    #[inline(always)]
    pub(crate) fn sum(&mut self)
        ensures answer { (ls : FourLinks) (m : List ℕ) → Gave self.new ls m ≡ row op.Sum self.old ls m }
        ensures kept { KeepsTurn self.old self.new }
    {
        self.binary(self.b.wrapping_add(self.a));
    }

    // mul
    #[inline(always)]
    pub(crate) fn multiply(&mut self) -> Result<(), Fault>
        ensures answer { (ls : FourLinks) (m : List ℕ) → finished result self.new ls m ≡ row op.Multiply self.old ls m }
        ensures kept { KeepsTurn self.old self.new }
    {
        let (product, overflows) = mul_checked(self.b, self.a);
        self.binary(product);
        self.raise_if(overflows)
    }

    // ldpi
    #[inline]
    pub(crate) fn load_pointer_to_instruction(&mut self)
        ensures { (ls : FourLinks) (m : List ℕ) → Gave self.new ls m ≡ row op.LoadPointerToInstruction self.old ls m }
    {
        self.a = self.instruction.wrapping_add(self.a);
    }

    // bcnt
    #[inline]
    pub(crate) fn byte_count(&mut self)
        ensures { (ls : FourLinks) (m : List ℕ) → Gave self.new ls m ≡ row op.ByteCount self.old ls m }
    {
        self.a = 4u32.wrapping_mul(self.a);
    }

    // mint
    #[inline(always)]
    pub(crate) fn minimum_integer(&mut self)
        ensures answer { (ls : FourLinks) (m : List ℕ) → Gave self.new ls m ≡ row op.MinimumInteger self.old ls m }
        ensures kept { KeepsTurn self.old self.new }
    {
        self.push(0x8000_0000);
    }

    // xword
    #[inline]
    pub(crate) fn extend_to_word(&mut self)
        ensures { (ls : FourLinks) (m : List ℕ) → Gave self.new ls m ≡ row op.ExtendToWord self.old ls m }
    {
        let extended = if self.b < self.a {
            self.b
        } else {
            self.b.wrapping_sub(2u32.wrapping_mul(self.a))
        };
        self.binary(extended);
    }

    // rem
    #[inline]
    pub(crate) fn remainder(&mut self) -> Result<(), Fault>
        ensures { (ls : FourLinks) (m : List ℕ) → finished result self.new ls m ≡ row op.Remainder self.old ls m }
    {
        if self.a == 0 {
            self.binary(0);
            return self.raise_if(true);
        }
        let rest = signed(self.b).wrapping_rem(signed(self.a));
        self.binary(rest.cast_unsigned());
        Ok(())
    }

    // div
    #[inline]
    pub(crate) fn divide(&mut self) -> Result<(), Fault>
        ensures { (ls : FourLinks) (m : List ℕ) → finished result self.new ls m ≡ row op.Divide self.old ls m }
    {
        if self.a == 0 || (self.b == 0x8000_0000 && self.a == 0xffff_ffff) {
            self.binary(0);
            return self.raise_if(true);
        }
        let quotient = signed(self.b) / signed(self.a);
        self.binary(quotient.cast_unsigned());
        Ok(())
    }
}
