//! Arithmetic on words: signed with an overflow flag, and on double words.

ghost use Rattle.std.specs.Prelude.{◌≡◌, ◌+◌, ◌*◌, ◌/◌, ◌%◌, ◌^◌, ◌<◌, ◌≤◌};
ghost use Rattle.std.specs.Int.{w32, w64, leading_zeros, cast_signed};
ghost use Rattle.node_memory.specs.Words.{overflows, sum_checked, difference_checked, product_checked, shifted_left, shifted_right};

/// The number that a word stands for in two's complement.
#[inline]
pub fn signed(word: u32) -> i32
    ensures { result ≡ cast_signed w32 word }
{
    word.cast_signed()
}

/// Whether 32 bits can't hold a number in two's complement.
#[inline]
pub fn overflows(exact: i64) -> bool
    ensures { result ≡ overflows exact }
{
    i32::try_from(exact).is_err()
}

/// A sum that wraps, and whether the signed sum doesn't fit.
///
/// Source: Transputer instruction set handbook, add.
#[inline]
#[tactic(auto, unfolding(crate::specs::Words::sum_checked))]
pub fn add_checked(left: u32, right: u32) -> (u32, bool)
    ensures { result ≡ sum_checked left right }
{
    let overflows = signed(left).checked_add(signed(right)).is_none();
    (left.wrapping_add(right), overflows)
}

/// The difference `left - right` that wraps, and whether the signed difference doesn't fit.
///
/// Source: Transputer instruction set handbook, subtract.
#[inline]
#[tactic(auto, unfolding(crate::specs::Words::difference_checked))]
pub fn sub_checked(left: u32, right: u32) -> (u32, bool)
    ensures { result ≡ difference_checked left right }
{
    let overflows = signed(left).checked_sub(signed(right)).is_none();
    (left.wrapping_sub(right), overflows)
}

/// A product that wraps, and whether the signed product doesn't fit.
///
/// Source: Transputer instruction set handbook, multiply.
#[inline]
#[tactic(auto, unfolding(crate::specs::Words::product_checked))]
pub fn mul_checked(left: u32, right: u32) -> (u32, bool)
    ensures { result ≡ product_checked left right }
{
    let overflows = signed(left).checked_mul(signed(right)).is_none();
    (left.wrapping_mul(right), overflows)
}

/// The double word of a high and a low word.
#[inline]
pub fn double(high: u32, low: u32) -> u64
    ensures { result ≡ high * 2 ^ 32 + low }
{
    (u64::from(high) << 32) + u64::from(low)
}

/// The high word of a double word.
#[inline]
pub fn high(long: u64) -> u32
    ensures { result ≡ long / 2 ^ 32 }
{
    (long >> 32) as u32
}

/// The low word of a double word.
#[inline]
pub fn low(long: u64) -> u32
    ensures { result ≡ long % 2 ^ 32 }
{
    (long % (1 << 32)) as u32
}

/// A double word shifted left, 0 from 64 places on.
///
/// Source: Transputer instruction set handbook, long shift left.
pub fn shift_left(long: u64, places: u32) -> u64
    ensures { result ≡ shifted_left 64 long places }
{
    if places < 64 { long << places } else { 0 }
}

/// A double word shifted right, 0 from 64 places on.
///
/// Source: Transputer instruction set handbook, long shift right.
pub fn shift_right(long: u64, places: u32) -> u64
    ensures { result ≡ shifted_right 64 long places }
{
    if places < 64 { long >> places } else { 0 }
}

/// How many places a double word goes left until its top bit is set, 64 for 0.
///
/// Source: Transputer instruction set handbook, normalise.
pub fn normal_places(long: u64) -> u32
    ensures places { result ≡ leading_zeros w64 long }

    // That many places bring a bit to the top of any double word but 0, and none past it.
    ensures top { 0 < long → 2 ^ 63 ≤ long * 2 ^ result }
    ensures fits { long * 2 ^ result < 2 ^ 64 }

    // 0 has no bit to bring there.
    ensures none { long ≡ 0 → result ≡ 64 }
{
    long.leading_zeros()
}
