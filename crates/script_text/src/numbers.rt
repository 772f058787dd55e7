//! Numbers that a word spells.
ghost use Rattle.script_text.specs.Numbers.{IsNumberOf};

/// The number below 2^64 that decimal digits spell; `None` if the word is anything else.
pub fn decimal_number(word: &str) -> Option<u64>
    ensures { IsNumberOf 10 64 word.now result }
{
    match word.as_bytes() {
        [b'+', ..] => None,
        _ => u64::from_str_radix(word, 10).ok(),
    }
}

/// The word of 32 bits that hexadecimal digits spell, in either case; `None` if the word is anything else.
pub fn hexadecimal_word(word: &str) -> Option<u32>
    ensures { IsNumberOf 16 32 word.now result }
{
    match word.as_bytes() {
        [b'+', ..] => None,
        _ => u32::from_str_radix(word, 16).ok(),
    }
}
