//! Double words.

ghost use Rattle.std.specs.Prelude.{◌≡◌, ◌<◌, ◌-ℤ◌, List, pos, ℕ};
ghost use Rattle.node_memory.specs.Words.{signed};

use crate::cpu::Cpu;
use node_memory::{
    Fault, double, high, low, normal_places, overflows, shift_left, shift_right, signed,
};

// A signed difference less a borrow.
fn exact_difference(left: u32, right: u32, borrow: u32) -> i64
    requires { borrow < 2 }
    ensures { result ≡ signed left -ℤ signed right -ℤ pos borrow }
{
    i64::from(signed(left)) - i64::from(signed(right)) - i64::from(borrow)
}

#[tactic(auto, unfolding(crate::specs::Rows::row))]
impl Cpu {
    ghost use Rattle.t414_decode.specs.declared.instruction.PlainOperation.TheVariants as op;
    ghost use Rattle.node_memory.specs.Effect.{Gave};
    ghost use Rattle.t414_step.specs.Answers.{finished};
    ghost use Rattle.link_channels.specs.declared.link.FourLinks.{FourLinks};
    ghost use Rattle.t414_step.specs.Rows.{row};

    // ladd
    #[inline]
    pub(crate) fn long_add(&mut self) -> Result<(), Fault>
        ensures { (ls : FourLinks) (m : List ℕ) → finished result self.new ls m ≡ row op.LongAdd self.old ls m }
    {
        let carry = self.c % 2;
        let exact = i64::from(signed(self.b)) + i64::from(signed(self.a)) + i64::from(carry);
        self.a = self.b.wrapping_add(self.a).wrapping_add(carry);
        self.raise_if(overflows(exact))
    }

    // lsub
    #[inline]
    pub(crate) fn long_subtract(&mut self) -> Result<(), Fault>
        ensures { (ls : FourLinks) (m : List ℕ) → finished result self.new ls m ≡ row op.LongSubtract self.old ls m }
    {
        let carry = self.c % 2;
        let exact = exact_difference(self.b, self.a, carry);
        self.a = self.b.wrapping_sub(self.a).wrapping_sub(carry);
        self.raise_if(overflows(exact))
    }

    // lsum
    #[inline]
    pub(crate) fn long_sum(&mut self)
        ensures { (ls : FourLinks) (m : List ℕ) → Gave self.new ls m ≡ row op.LongSum self.old ls m }
    {
        let sum = u64::from(self.b) + u64::from(self.a) + u64::from(self.c % 2);
        self.a = low(sum);
        self.b = high(sum);
    }

    // ldiff
    #[inline]
    pub(crate) fn long_difference(&mut self)
        ensures { (ls : FourLinks) (m : List ℕ) → Gave self.new ls m ≡ row op.LongDifference self.old ls m }
    {
        let carry = self.c % 2;
        let borrow = u64::from(self.b) < u64::from(self.a) + u64::from(carry);
        self.a = self.b.wrapping_sub(self.a).wrapping_sub(carry);
        self.b = u32::from(borrow);
    }

    // lmul
    #[inline]
    pub(crate) fn long_multiply(&mut self)
        ensures { (ls : FourLinks) (m : List ℕ) → Gave self.new ls m ≡ row op.LongMultiply self.old ls m }
    {
        let product = u64::from(self.b) * u64::from(self.a) + u64::from(self.c);
        self.a = low(product);
        self.b = high(product);
    }

    // ldiv
    #[inline]
    pub(crate) fn long_divide(&mut self) -> Result<(), Fault>
        ensures { (ls : FourLinks) (m : List ℕ) → finished result self.new ls m ≡ row op.LongDivide self.old ls m }
    {
        if self.a <= self.c {
            self.a = 0;
            self.b = 0;
            return self.raise_if(true);
        }
        let dividend = double(self.c, self.b);
        let divisor = u64::from(self.a);
        self.a = (dividend / divisor) as u32;
        self.b = (dividend % divisor) as u32;
        Ok(())
    }

    // lshl
    #[inline]
    pub(crate) fn long_shift_left(&mut self)
        ensures { (ls : FourLinks) (m : List ℕ) → Gave self.new ls m ≡ row op.LongShiftLeft self.old ls m }
    {
        let shifted = shift_left(double(self.c, self.b), self.a);
        self.a = low(shifted);
        self.b = high(shifted);
    }

    // lshr
    #[inline]
    pub(crate) fn long_shift_right(&mut self)
        ensures { (ls : FourLinks) (m : List ℕ) → Gave self.new ls m ≡ row op.LongShiftRight self.old ls m }
    {
        let shifted = shift_right(double(self.c, self.b), self.a);
        self.a = low(shifted);
        self.b = high(shifted);
    }

    // norm
    #[inline]
    pub(crate) fn normalise(&mut self)
        ensures { (ls : FourLinks) (m : List ℕ) → Gave self.new ls m ≡ row op.Normalise self.old ls m }
    {
        let long = double(self.b, self.a);
        let places = normal_places(long);
        let shifted = shift_left(long, places);
        self.a = low(shifted);
        self.b = high(shifted);
        self.c = places;
    }

    // xdble
    #[inline]
    pub(crate) fn extend_to_double(&mut self)
        ensures { (ls : FourLinks) (m : List ℕ) → Gave self.new ls m ≡ row op.ExtendToDouble self.old ls m }
    {
        self.c = self.b;
        self.b = if self.a < 1 << 31 { 0 } else { u32::MAX };
    }

    // csngl
    #[inline]
    pub(crate) fn check_single(&mut self) -> Result<(), Fault>
        ensures { (ls : FourLinks) (m : List ℕ) → finished result self.new ls m ≡ row op.CheckSingle self.old ls m }
    {
        let extension = if self.a < 1 << 31 { 0 } else { u32::MAX };
        let raised = self.b != extension;
        self.b = self.c;
        self.raise_if(raised)
    }
}
