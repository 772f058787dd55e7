//! The answers that a script hasn't.
ghost use Rattle.std.specs.List.{flat_map};
ghost use Rattle.std.specs.Prelude.{◌≡◌, ◌++◌, IfOk, OnOk, true, codes, string_bytes, if◌then◌else◌};
ghost use Rattle.std.specs.Str.Lines.{lines};
ghost use Rattle.live_farm.specs.WholeLines.{are_lines};
ghost use Rattle.live_farm.specs.LiveTexts.{reason_word, error_text, unknown_user_text, rest_text, rest_word, rest_state_of, note_text, restart_text, operator_restart_text};
ghost use Rattle.live_farm.specs.LiveTexts.{why_line, why_text, no_node_text};

use domain_core::NoMemory;
use farm_service::DomainStatus;
use script_lines::LineFault;
use std::alloc::Global;

/// Why a line isn't done.
#[derive(Clone, Copy)]
pub enum NotDone {
    /// It is wrong as a line of a script is.
    Fault(LineFault),
    /// It is too long.
    Long,
    /// Too many lines wait for the domain.
    Busy,
    /// It, or what was answered before it, can't be recorded.
    Record,
    /// The room of the domain is used up.
    Full,
    /// There is no memory for it.
    Memory,
}

impl NotDone {
    /// As it is shown.
    pub fn word(self) -> &'static str
        ensures { result.now ≡ reason_word self }
    {
        match self {
            NotDone::Fault(fault) => fault.word(),
            NotDone::Long => "long",
            NotDone::Busy => "busy",
            NotDone::Record => "record",
            NotDone::Full => "full",
            NotDone::Memory => "memory",
        }
    }
}

/// The lines of an answer, which are whole and are written together.
#[derive(Drop)]
pub struct LiveAnswer {
    pub(crate) text: String,
    ghost whole: { are_lines (string_bytes text) ≡ true },
}

impl LiveAnswer {
    /// Whole lines.
    pub fn of(text: String) -> LiveAnswer
        requires { are_lines (string_bytes text) ≡ true }
        ensures text { result.text ≡ text }
    {
        LiveAnswer { text }
    }

    /// A text as a line, with a line feed after it.
    pub fn line(mut text: String) -> Result<LiveAnswer, NoMemory>
        ensures { IfOk result (λ a. string_bytes a.text ≡ string_bytes text ++ codes "\n") }
    {
        text.push_str("\n")?;
        Ok(LiveAnswer::of(text))
    }

    /// The lines, as they are held.
    pub fn into_text(self) -> String
        ensures { result ≡ self.text }
    {
        let LiveAnswer { text } = self;
        text
    }

    /// The lines.
    pub fn as_str(&self) -> &str
        ensures text { result.now ≡ string_bytes self.now.text }
        ensures whole { are_lines result.now ≡ true }
    {
        self.text.as_str()
    }
}

/// That a line of this number isn't done: of a user, or of the operator, who is called `!`.
pub fn error_answer(
    alloc: Global,
    name: &str,
    number: u64,
    why: NotDone,
) -> Result<LiveAnswer, NoMemory>
    ensures { IfOk result (λ a. string_bytes a.text ≡ error_text name.now number why) }
{
    error_answer_in(String::new(alloc), name, number, why)
}

/// The same, written over the text that is given, in its memory.
pub fn error_answer_in(
    mut text: String,
    name: &str,
    number: u64,
    why: NotDone,
) -> Result<LiveAnswer, NoMemory>
    ensures { IfOk result (λ a. string_bytes a.text ≡ error_text name.now number why) }
{
    let word = why.word();
    text.clear();
    write!(text, "{name} error {number} {word}")?;
    LiveAnswer::line(text)
}

/// That the line of this number is no user's.
pub fn unknown_user_answer(alloc: Global, number: u64) -> Result<LiveAnswer, NoMemory>
    ensures { IfOk result (λ a. string_bytes a.text ≡ unknown_user_text number) }
{
    LiveAnswer::line(format!(in alloc; "error {number} user")?)
}

// One word or the other.
fn word_of_two(is_first: bool, first: &'static str, second: &'static str) -> &'static str
    ensures { result.now ≡ (if is_first then first.now else second.now) }
{
    if is_first { first } else { second }
}

/// Whether a user's domain is at rest.
#[derive(Clone, Copy)]
pub enum RestState {
    /// No Step and no Move of it would be recorded.
    Quiet,
    /// One would.
    Busy,
    /// Its room is used up, so that no Step and no Move of it is done.
    Full,
}

impl RestState {
    /// What the status of a domain says of it.
    pub fn of(status: DomainStatus) -> RestState
        ensures { result ≡ rest_state_of status }
    {
        if status.is_quiet {
            RestState::Quiet
        } else if status.room.rests.is_some() {
            RestState::Full
        } else {
            RestState::Busy
        }
    }

    // As it is shown.
    fn word(self) -> &'static str
        ensures { result.now ≡ rest_word self }
    {
        match self {
            RestState::Quiet => "quiet",
            RestState::Busy => "busy",
            RestState::Full => "full",
        }
    }
}

/// Whether a user's domain is at rest.
pub fn rest_answer(alloc: Global, name: &str, state: RestState) -> Result<LiveAnswer, NoMemory>
    ensures { IfOk result (λ a. string_bytes a.text ≡ rest_text name.now state) }
{
    let word = state.word();
    let answer = LiveAnswer::line(format!(in alloc; "{name} rest {word}")?)?;
    Ok(answer)
}

/// Why a domain rests. Of a room that is used up it says how many bytes are used and how many there are.
#[derive(Clone, Copy)]
pub enum RestNote {
    /// The domain's room is used up.
    Room { used: u64, room: u64 },
    /// The room of its records is.
    Records { used: u64, room: u64 },
    /// Memory ran out.
    Memory,
    /// Its nodes have done as many Steps as they may until it restarts.
    Steps,
    /// They have done as many as they may after a line of its users.
    Line,
}

/// That the domain of a user rests, and why.
pub fn note_answer(alloc: Global, name: &str, note: RestNote) -> Result<LiveAnswer, NoMemory>
    ensures { IfOk result (λ a. string_bytes a.text ≡ note_text name.now note) }
{
    match note {
        RestNote::Room { used, room } => {
            let answer = LiveAnswer::line(format!(in alloc; "{name} note rests {used} {room}")?)?;
            Ok(answer)
        }
        RestNote::Records { used, room } => {
            let text = format!(in alloc; "{name} note rests records {used} {room}")?;
            let answer = LiveAnswer::line(text)?;
            Ok(answer)
        }
        RestNote::Memory => {
            let answer = LiveAnswer::line(format!(in alloc; "{name} note rests memory")?)?;
            Ok(answer)
        }
        RestNote::Steps => {
            let answer = LiveAnswer::line(format!(in alloc; "{name} note rests steps")?)?;
            Ok(answer)
        }
        RestNote::Line => {
            let answer = LiveAnswer::line(format!(in alloc; "{name} note rests line")?)?;
            Ok(answer)
        }
    }
}

/// That the domain of these users rests, and why, for standard error.
pub fn rest_notice(alloc: Global, names: &str, note: RestNote) -> Result<String, NoMemory> {
    let mut text = format!(in alloc; "the domain of {names} rests: ")?;
    match note {
        RestNote::Room { used, room } => write!(text, "{used} of {room} bytes are used")?,
        RestNote::Records { used, room } => {
            write!(text, "{used} of {room} bytes of its records are used")?;
        }
        RestNote::Memory => text.push_str("memory ran out")?,
        RestNote::Steps => text.push_str("its nodes have done as many Steps as they may")?,
        RestNote::Line => {
            text.push_str("its nodes have done as many Steps as they may after a line")?;
        }
    }
    let until = match note {
        RestNote::Line => "its users' next line",
        _ => "it begins anew",
    };
    write!(text, ". Its nodes do nothing more until {until}\n")?;
    Ok(text)
}

/// Whether a user's domain begins again, or only the operator may ask for that.
pub fn restart_answer(alloc: Global, name: &str, is_done: bool) -> Result<LiveAnswer, NoMemory>
    ensures { IfOk result (λ a. string_bytes a.text ≡ restart_text name.now is_done) }
{
    let word = word_of_two(is_done, "ok", "operator");
    let answer = LiveAnswer::line(format!(in alloc; "{name} restart {word}")?)?;
    Ok(answer)
}

// Appends a line of an answer to `why` for each line of a text.
fn push_why_lines(text: &mut String, name: &str, told: &str) -> Result<(), NoMemory>
    ensures { OnOk result (string_bytes text.new ≡ string_bytes text.old ++ flat_map (why_line name.now) (lines told.now)) }
{
    for line in told.lines() {
        write!(text, "{name} why {line}\n")?;
    }
    Ok(())
}

/// Why the nodes of a user's domain do no more than they do: a line for each line of `told`, and a last line after them.
pub fn why_answer(alloc: Global, name: &str, told: &str) -> Result<LiveAnswer, NoMemory>
    ensures { IfOk result (λ a. string_bytes a.text ≡ why_text name.now told.now) }
{
    let mut text = String::new(alloc);
    push_why_lines(&mut text, name, told)?;
    write!(text, "{name} why end")?;
    LiveAnswer::line(text)
}

/// That a user's domain has no node of this number.
pub fn no_node_answer(alloc: Global, name: &str, node: u8) -> Result<LiveAnswer, NoMemory>
    ensures { IfOk result (λ a. string_bytes a.text ≡ no_node_text name.now node) }
{
    let answer = LiveAnswer::line(format!(in alloc; "{name} why {node} nosuch")?)?;
    Ok(answer)
}

/// That the domain of a user begins again, for the operator.
pub fn operator_restart_answer(alloc: Global, name: &str) -> Result<LiveAnswer, NoMemory>
    ensures { IfOk result (λ a. string_bytes a.text ≡ operator_restart_text name.now) }
{
    let answer = LiveAnswer::line(format!(in alloc; "!restart {name} ok")?)?;
    Ok(answer)
}
