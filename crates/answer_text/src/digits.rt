//! Bytes as digits.
ghost use Rattle.std.specs.Prelude.{◌≡◌, ◌++◌, OnOk, string_bytes};
ghost use Rattle.answer_text.specs.Digits.{byte_text};

use domain_core::NoMemory;

/// Appends a byte in two hexadecimal digits.
#[tactic(auto, using(std::proofs::lemmas::Fmt::hex_byte))]
pub fn write_byte(text: &mut String, byte: u8) -> Result<(), NoMemory>
    ensures text { OnOk result (string_bytes text.new ≡ string_bytes text.old ++ byte_text byte) }
{
    write!(text, "{byte:02x}")
}
