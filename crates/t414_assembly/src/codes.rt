//! The byte of a function and a nibble, and which functions are prefixes.
ghost use Rattle.std.specs.Prelude.{◌≡◌, ◌<◌, ◌/◌, ◌%◌, ◌+◌, ◌*◌};
ghost use Rattle.t414_decode.specs.Codes.{function_of};
ghost use Rattle.t414_decode.specs.Meaning.{continues};
ghost use Rattle.t414_assembly.specs.Usual.{nibble_of};

use t414_decode::Function;

/// The byte of a function with a nibble below 16.
///
/// Source: Transputer instruction set handbook, direct functions.
pub fn byte_of(function: Function, nibble: u8) -> u8
    requires { nibble < 16 }
    ensures function { function_of (result / 16) ≡ function }
    ensures nibble { result % 16 ≡ nibble }
    ensures byte { result ≡ nibble_of function * 16 + nibble }
{
    high_nibble(function) * 16 + nibble
}

// The high nibble of a function.
#[tactic(auto, unfolding(t414_decode::specs::Codes::function_of, crate::specs::Usual::nibble_of))]
fn high_nibble(function: Function) -> u8
    ensures function { function_of result ≡ function }
    ensures nibble { result ≡ nibble_of function }
    ensures most { result < 16 }
{
    match function {
        Function::Jump => 0x0,
        Function::LoadLocalPointer => 0x1,
        Function::Prefix => 0x2,
        Function::LoadNonLocal => 0x3,
        Function::LoadConstant => 0x4,
        Function::LoadNonLocalPointer => 0x5,
        Function::NegativePrefix => 0x6,
        Function::LoadLocal => 0x7,
        Function::AddConstant => 0x8,
        Function::Call => 0x9,
        Function::ConditionalJump => 0xa,
        Function::AdjustWorkspace => 0xb,
        Function::EqualsConstant => 0xc,
        Function::StoreLocal => 0xd,
        Function::StoreNonLocal => 0xe,
        Function::Operate => 0xf,
    }
}

/// Whether the instruction goes on after a byte of this function. It does for pfix and nfix.
pub fn is_prefix(function: Function) -> bool
    ensures { result ≡ continues function }
{
    matches!(function, Function::Prefix | Function::NegativePrefix)
}
