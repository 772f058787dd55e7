//! The bytes that a text in quotes means.
ghost use Rattle.std.specs.Prelude.{◌≡◌, ◌≢◌, ◌<◌, ◌∷◌, ◌++◌, [], ℕ, List, Some, None, length, IfOk, IfSome, MatchOption};
ghost use Rattle.hex.specs.Hex.{hex_digit_value};
ghost use Rattle.shorthand_lines.specs.QuotedTexts.{quote, escaped, TextMeans, IsQuotedText};
ghost use Rattle.shorthand_lines.specs.Reading.{two_digits, read_after_x, read_after_backslash, read_character};

use std::alloc::{AllocError, Global};

// The value of a hexadecimal digit, in either case.
fn digit_value(digit: u8) -> Option<u8>
    ensures value { result ≡ hex_digit_value digit }
    ensures small { IfSome result (λ v. v < 16) }
{
    match digit {
        b'A'..=b'F' => Some(digit - b'A' + 10),
        b'a'..=b'f' => Some(digit - b'a' + 10),
        b'0'..=b'9' => Some(digit - b'0'),
        _ => None,
    }
}

// The byte that two hexadecimal digits mean, the high one first.
#[tactic(auto, unfolding(crate::specs::Reading::two_digits))]
fn byte_of_digits(high: u8, low: u8) -> Option<u8>
    ensures { result ≡ two_digits high low }
{
    let high = digit_value(high)?;
    let low = digit_value(low)?;
    Some(high * 16 + low)
}

// The byte that a letter means after a backslash.
#[tactic(auto, unfolding(crate::specs::QuotedTexts::escaped))]
fn escaped_byte(letter: u8) -> Option<u8>
    ensures { result ≡ escaped letter }
{
    match letter {
        b'n' => Some(b'\n'),
        b'r' => Some(b'\r'),
        b't' => Some(b'\t'),
        b'0' => Some(0),
        b'\\' => Some(b'\\'),
        b'"' => Some(b'"'),
        _ => None,
    }
}

// The byte that a character means whose `\x` was taken, and what is after it.
fn take_after_x(text: &[u8]) -> Option<(u8, &[u8])>
    ensures read { MatchOption result (read_after_x text.now ≡ None) (λ r. read_after_x text.now ≡ Some (r.0, r.1.now)) }
    ensures shorter { IfSome result (λ r. length r.1.now < length text.now) }
{
    match text {
        [high, low, rest @ ..] => {
            let byte = byte_of_digits(*high, *low)?;
            Some((byte, rest))
        }
        _ => None,
    }
}

// The same of one whose backslash was taken.
fn take_after_backslash(text: &[u8]) -> Option<(u8, &[u8])>
    ensures read { MatchOption result (read_after_backslash text.now ≡ None) (λ r. read_after_backslash text.now ≡ Some (r.0, r.1.now)) }
    ensures shorter { IfSome result (λ r. length r.1.now < length text.now) }
{
    match text {
        [] => None,
        [b'x', rest @ ..] => take_after_x(rest),
        [letter, rest @ ..] => {
            let byte = escaped_byte(*letter)?;
            Some((byte, rest))
        }
    }
}

// The byte that the first character of a text means, and what is after it.
fn take_character(text: &[u8]) -> Option<(u8, &[u8])>
    ensures read { MatchOption result (read_character text.now ≡ None) (λ r. read_character text.now ≡ Some (r.0, r.1.now)) }
    ensures shorter { IfSome result (λ r. length r.1.now < length text.now) }
{
    match text {
        [] => None,
        [b'\\', rest @ ..] => take_after_backslash(rest),
        [b'"', ..] => None,
        [byte, rest @ ..] => Some((*byte, rest)),
    }
}

// The bytes that a text means, if it means any.
fn bytes_meant(alloc: Global, text: &[u8]) -> Result<Option<Vec<u8>>, AllocError>
    ensures { IfOk result (λ found. MatchOption found ((bytes : List ℕ) → ¬ TextMeans text.now bytes) (λ v. TextMeans text.now v.items)) }
{
    let mut bytes = Vec::new(alloc);
    let mut rest = text;
    while !rest.is_empty() {
        let Some((byte, after)) = take_character(rest) else {
            return Ok(None);
        };
        bytes.push(byte)?;
        rest = after;
    }
    Ok(Some(bytes))
}

// What is between the quotes of a text in quotes.
fn without_quotes(quoted: &[u8]) -> Option<&[u8]>
    ensures { MatchOption result ((text : List ℕ) → quoted.now ≢ quote ∷ text ++ quote ∷ []) (λ t. quoted.now ≡ quote ∷ t.now ++ quote ∷ []) }
{
    let (first, after) = quoted.split_first()?;
    let (last, text) = after.split_last()?;
    if *first != b'"' {
        return None;
    }
    if *last != b'"' {
        return None;
    }
    Some(text)
}

/// The bytes that a text in quotes means, one at least. None if it is no such text.
pub(crate) fn quoted_bytes(alloc: Global, quoted: &[u8]) -> Result<Option<Vec<u8>>, AllocError>
    ensures { IfOk result (λ found. MatchOption found ((bytes : List ℕ) → ¬ IsQuotedText quoted.now bytes) (λ v. IsQuotedText quoted.now v.items)) }
{
    let Some(text) = without_quotes(quoted) else {
        return Ok(None);
    };
    let found = bytes_meant(alloc, text)?;
    let Some(bytes) = found else {
        return Ok(None);
    };
    if bytes.is_empty() {
        return Ok(None);
    }
    Ok(Some(bytes))
}
