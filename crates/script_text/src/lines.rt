//! The lines of a text, and its division into a plan and what follows it.
ghost use Rattle.std.specs.Prelude.{◌≡◌, ◌<◌, ◌↔◌, ℕ, IsTrue, length};
ghost use Rattle.std.specs.List.{filter};
ghost use Rattle.std.specs.Str.Lines.{strip_carriage_return};
ghost use Rattle.script_text.specs.Lines.{is_line_feed, line_of, after_line, IsLine, IsDivided, asks_nothing, plan_end};

/// The line that ends a plan, if more follows it in its text.
const PLAN_END: &[u8] = b"---";

/// A text that begins with a plan.
#[derive(Clone, Copy)]
pub struct PlanText<'a> {
    /// What comes before the first line `---`; the whole text if it has no such line.
    pub plan: &'a [u8],
    /// What comes after that line; nothing if there is none.
    pub rest: &'a [u8],
    /// Whether the text has such a line.
    pub has_plan_end: bool,
}

/// A line without its line feed and one carriage return before that, and what follows it.
pub fn split_line(text: &[u8]) -> (&[u8], &[u8])
    ensures line { result.0.now ≡ line_of text.now }
    ensures rest { result.1.now ≡ after_line text.now }
    ensures shorter { 0 < length text.now → length result.1.now < length text.now }
{
    match text.iter().position(|byte| *byte == b'\n') {
        Some(end) => (without_return(&text[..end]), &text[end + 1..]),
        None => (text, &[]),
    }
}

// A line without one carriage return at its end.
fn without_return(line: &[u8]) -> &[u8]
    ensures { result.now ≡ strip_carriage_return line.now }
{
    let count = line.len();
    if count > 0 && line[count - 1] == b'\r' {
        &line[..count - 1]
    } else {
        line
    }
}

/// The text before and after the first line that is exactly `mark`; without such a line, the whole text and nothing.
pub fn divide<'a>(text: &'a [u8], mark: &[u8]) -> (&'a [u8], &'a [u8])
    ensures { IsDivided text.now mark.now result.0.now result.1.now }
{
    let mut rest = text;
    while !rest.is_empty() {
        let (line, after) = split_line(rest);
        if line == mark {
            return (&text[..text.len() - rest.len()], after);
        }
        rest = after;
    }
    (text, &[])
}

/// A text divided at its first line `---`.
pub fn divide_at_plan_end(text: &[u8]) -> PlanText<'_>
    ensures parts { IsDivided text.now plan_end result.plan.now result.rest.now }
    ensures end { IsTrue result.has_plan_end ↔ ((number : ℕ) × IsLine text.now number plan_end) }
{
    let (plan, rest) = divide(text, PLAN_END);
    PlanText {
        plan,
        rest,
        has_plan_end: plan.len() < text.len(),
    }
}

fn is_line_feed(byte: u8) -> bool
    ensures { result ≡ is_line_feed byte }
{
    byte == b'\n'
}

/// How many line feeds a text has. If it ends with one, it has as many lines.
pub fn count_lines(text: &[u8]) -> usize
    ensures { result ≡ length (filter is_line_feed text.now) }
{
    let mut count = 0;
    for byte in text {
        if is_line_feed(*byte) {
            count += 1;
        }
    }
    count
}

/// Whether a line asks for nothing: it is empty or begins with `#`.
pub fn is_passed_over(line: &[u8]) -> bool
    ensures { result ≡ asks_nothing line.now }
{
    match line {
        [] => true,
        [first, ..] => *first == b'#',
    }
}
