//! The commands of the debugger, as they are read.
ghost use Rattle.std.specs.Prelude.{◌≤◌, IfOk};

use script_text::{TextWriter, decimal_number, hexadecimal_word, nearest_entry, value_named};

/// An address, as it is written.
#[derive(Clone, Copy)]
pub enum Address<'a> {
    Number(u32),
    /// A label of the node's program.
    Label(&'a str),
}

/// What is looked for in a record.
#[derive(Clone, Copy)]
pub enum Sought<'a> {
    /// A node comes to the instruction at an address.
    At { node: u8, address: Address<'a> },
    /// A node comes to the code of the line of this number.
    Line { node: u8, line: u32 },
    /// A node comes to an instruction byte that doesn't follow the one that it did.
    Jump { node: u8 },
    /// A node meets a fault.
    Fault,
    /// A byte leaves a virtual port, or comes to it.
    Byte(u8),
    /// The word at an address of a node becomes another.
    Write { node: u8, address: Address<'a> },
    /// A packet is lost.
    Lost,
}

/// What the debugger is asked to do.
#[derive(Clone, Copy)]
pub enum DebugCommand<'a> {
    /// An empty line.
    Nothing,
    Events {
        from: Option<u64>,
        count: u64,
    },
    Go(u64),
    Next(u64),
    /// To go `count` events on, and to show each of them, or only those that concern a node.
    Trace {
        count: u64,
        node: Option<u8>,
    },
    Back(u64),
    Until(Sought<'a>),
    BackUntil(Sought<'a>),
    Look,
    Registers(u8),
    Memory {
        node: u8,
        address: Address<'a>,
        count: u64,
    },
    Code {
        node: u8,
        address: Option<Address<'a>>,
    },
    /// The variables of a node's program, or those of a name.
    Variables {
        node: u8,
        name: Option<&'a str>,
    },
    Queue(u8),
    Links(u8),
    Hosts,
    Switch,
    Why(Option<u8>),
    Program {
        node: u8,
        file: &'a str,
    },
    Help,
    Quit,
}

/// The first word of a command.
#[derive(Clone, Copy)]
enum FirstWord {
    Events,
    Go,
    Next,
    Trace,
    Back,
    Until,
    Look,
    Registers,
    Memory,
    Code,
    Variables,
    Queue,
    Links,
    Hosts,
    Switch,
    Why,
    Program,
    Help,
    Quit,
}

const FIRST_WORDS: [(&str, FirstWord); 19] = [
    ("events", FirstWord::Events),
    ("go", FirstWord::Go),
    ("next", FirstWord::Next),
    ("trace", FirstWord::Trace),
    ("back", FirstWord::Back),
    ("until", FirstWord::Until),
    ("look", FirstWord::Look),
    ("registers", FirstWord::Registers),
    ("memory", FirstWord::Memory),
    ("code", FirstWord::Code),
    ("variables", FirstWord::Variables),
    ("queue", FirstWord::Queue),
    ("links", FirstWord::Links),
    ("hosts", FirstWord::Hosts),
    ("switch", FirstWord::Switch),
    ("why", FirstWord::Why),
    ("program", FirstWord::Program),
    ("help", FirstWord::Help),
    ("quit", FirstWord::Quit),
];

/// The word after `until`.
#[derive(Clone, Copy)]
enum SoughtWord {
    Node,
    Jump,
    Fault,
    Byte,
    Write,
    Lost,
}

const SOUGHT_WORDS: [(&str, SoughtWord); 6] = [
    ("node", SoughtWord::Node),
    ("jump", SoughtWord::Jump),
    ("fault", SoughtWord::Fault),
    ("byte", SoughtWord::Byte),
    ("write", SoughtWord::Write),
    ("lost", SoughtWord::Lost),
];

/// What is wrong with a word of a command.
#[derive(Clone, Copy)]
enum Mistake {
    /// It is missing.
    Missing,
    NoCommand,
    /// It names nothing that `until` looks for.
    NoSought,
    NoNumber,
    Unexpected,
}

impl Mistake {
    // What is said of the word.
    fn text(self) -> &'static str {
        match self {
            Mistake::Missing => "a word is missing",
            Mistake::NoCommand => " is no command",
            Mistake::NoNumber => " is no number that fits there",
            Mistake::NoSought | Mistake::Unexpected => " can't stand there",
        }
    }

    // What the word may be meant for.
    fn nearest(self, word: &str) -> Option<&'static str> {
        match self {
            Mistake::NoCommand => nearest_entry(word, &FIRST_WORDS),
            Mistake::NoSought => nearest_entry(word, &SOUGHT_WORDS),
            Mistake::Missing | Mistake::NoNumber | Mistake::Unexpected => None,
        }
    }
}

/// Why a line is no command: what is wrong with a word of it, and which command that is. It is `help` if the first word is wrong.
#[derive(Clone, Copy)]
pub struct CommandFault<'a> {
    // Empty if it is missing.
    word: &'a str,
    mistake: Mistake,
    verb: FirstWord,
}

impl CommandFault<'_> {
    /// Writes which word is wrong, and what to try.
    pub fn write(self, text: &mut TextWriter) {
        if !self.word.is_empty() {
            text.push("`");
            text.push(self.word);
            text.push("`");
        }
        text.push(self.mistake.text());
        if let Some(name) = self.mistake.nearest(self.word) {
            text.push(" (is it ");
            text.push(name);
            text.push("?)");
        }
        text.push(": try ");
        text.push(self.verb.usage());
        text.push("\n");
    }
}

impl FirstWord {
    // How the command is written.
    fn usage(self) -> &'static str {
        match self {
            FirstWord::Events => "events [FROM [COUNT]]",
            FirstWord::Go => "go N",
            FirstWord::Next => "next [N]",
            FirstWord::Trace => "trace [N [K]]",
            FirstWord::Back => "back [N], or back until ..",
            FirstWord::Until =>
                "until node K at ADDR, until node K at line L, until jump of node K, until fault, until byte PORT, until write ADDR of node K, or until lost",
            FirstWord::Look => "look",
            FirstWord::Registers => "registers K",
            FirstWord::Memory => "memory K ADDR [COUNT]",
            FirstWord::Code => "code K [ADDR]",
            FirstWord::Variables => "variables K [NAME]",
            FirstWord::Queue => "queue K",
            FirstWord::Links => "links K",
            FirstWord::Hosts => "hosts",
            FirstWord::Switch => "switch",
            FirstWord::Why => "why [K]",
            FirstWord::Program => "program K FILE",
            FirstWord::Help => "help",
            FirstWord::Quit => "quit",
        }
    }

    // What the command does.
    fn does(self) -> &'static str {
        match self {
            FirstWord::Events => "the lines of the record from an event on",
            FirstWord::Go => "to the moment after the first N events",
            FirstWord::Next => "N events on",
            FirstWord::Trace => "N events on, and shows what each does, or those of node K",
            FirstWord::Back => "N events back, or to the last moment that is so",
            FirstWord::Until => "to the next moment that is so",
            FirstWord::Look => "what each node does",
            FirstWord::Registers => "the registers of node K",
            FirstWord::Memory => "words of its memory",
            FirstWord::Code => "its instructions, with > at the one that it does next",
            FirstWord::Variables => "the variables of its occam program, or those of a name",
            FirstWord::Queue => "its process, and those that wait for the processor",
            FirstWord::Links => "its four links",
            FirstWord::Hosts => "what the hosts send and have received",
            FirstWord::Switch => "what drives each output",
            FirstWord::Why => "why the nodes do no more than they do",
            FirstWord::Program =>
                "takes labels or variables, and lines, from the program of node K",
            FirstWord::Help => "this list",
            FirstWord::Quit => "ends",
        }
    }
}

/// Writes how each command is written, and what it does.
pub fn write_help(text: &mut TextWriter) {
    for (_, verb) in &FIRST_WORDS {
        text.push(verb.usage());
        text.push(": ");
        text.push(verb.does());
        text.push("\n");
    }
    text.push(
        "An address has hexadecimal digits, of which the first is 0 to 9, or is a label, or the name of an occam variable.\n",
    );
}

/// The words of a command that are still to be read.
#[derive(Clone, Copy)]
struct CommandWords<'a> {
    rest: &'a str,
    // The last that was read, or an empty one if there was none.
    last: &'a str,
    // The command.
    verb: FirstWord,
}

impl<'a> CommandWords<'a> {
    // The next word, if there is one. Blanks divide.
    fn next_word(&mut self) -> Option<&'a str> {
        let rest = self.rest.trim_start();
        let (word, behind) = rest.split_once(' ').unwrap_or((rest, ""));
        self.rest = behind;
        self.last = word;
        if word.is_empty() { None } else { Some(word) }
    }

    fn word(&mut self) -> Result<&'a str, Mistake> {
        match self.next_word() {
            Some(word) => Ok(word),
            None => Err(Mistake::Missing),
        }
    }

    // The next word has to be this one.
    fn expect(&mut self, expected: &str) -> Result<(), Mistake> {
        if self.word()? == expected {
            Ok(())
        } else {
            Err(Mistake::Unexpected)
        }
    }

    // Whether no word is left.
    fn is_empty(&self) -> bool {
        self.rest.trim_start().is_empty()
    }

    // A decimal number, at most so great.
    fn number(&mut self, most: u64) -> Result<u64, Mistake>
        ensures { IfOk result (λ number. number ≤ most) }
    {
        match decimal_number(self.word()?) {
            Some(number) if number <= most => Ok(number),
            _ => Err(Mistake::NoNumber),
        }
    }

    // A decimal number, or this one if no word is left.
    fn number_or(&mut self, usual: u64) -> Result<u64, Mistake> {
        if self.is_empty() {
            return Ok(usual);
        }
        self.number(u64::MAX)
    }

    // A decimal number below 256.
    fn small(&mut self) -> Result<u8, Mistake> {
        Ok(self.number(255)? as u8)
    }

    fn address(&mut self) -> Result<Address<'a>, Mistake> {
        let word = self.word()?;
        match word.as_bytes() {
            [b'0'..=b'9', ..] => match hexadecimal_word(word) {
                Some(number) => Ok(Address::Number(number)),
                None => Err(Mistake::NoNumber),
            },
            _ => Ok(Address::Label(word)),
        }
    }

    // What comes after `until`.
    fn take_sought(&mut self) -> Result<Sought<'a>, Mistake> {
        self.verb = FirstWord::Until;
        match value_named(&SOUGHT_WORDS, self.word()?) {
            Some(SoughtWord::Fault) => Ok(Sought::Fault),
            Some(SoughtWord::Lost) => Ok(Sought::Lost),
            Some(SoughtWord::Byte) => Ok(Sought::Byte(self.small()?)),
            Some(SoughtWord::Node) => self.sought_at(),
            Some(SoughtWord::Jump) => Ok(Sought::Jump {
                node: self.of_node()?,
            }),
            Some(SoughtWord::Write) => self.sought_write(),
            None => Err(Mistake::NoSought),
        }
    }

    // What comes after `until node`.
    fn sought_at(&mut self) -> Result<Sought<'a>, Mistake> {
        let node = self.small()?;
        self.expect("at")?;
        if let Some(line) = self.line_number()? {
            return Ok(Sought::Line { node, line });
        }
        let address = self.address()?;
        Ok(Sought::At { node, address })
    }

    // The number after the word `line`, if there is one after it: a label may have that name.
    fn line_number(&mut self) -> Result<Option<u32>, Mistake> {
        let mut ahead = *self;
        if ahead.next_word() != Some("line") || ahead.is_empty() {
            return Ok(None);
        }
        *self = ahead;
        match u32::try_from(self.number(u64::MAX)?) {
            Ok(line) => Ok(Some(line)),
            Err(_) => Err(Mistake::NoNumber),
        }
    }

    // What comes after `until write`.
    fn sought_write(&mut self) -> Result<Sought<'a>, Mistake> {
        let address = self.address()?;
        let node = self.of_node()?;
        Ok(Sought::Write { node, address })
    }

    // The node after `of node`.
    fn of_node(&mut self) -> Result<u8, Mistake> {
        self.expect("of")?;
        self.expect("node")?;
        self.small()
    }

    // What comes after `back`.
    fn back(&mut self) -> Result<DebugCommand<'a>, Mistake> {
        let mut ahead = *self;
        if ahead.next_word() == Some("until") {
            self.rest = ahead.rest;
            return Ok(DebugCommand::BackUntil(self.take_sought()?));
        }
        Ok(DebugCommand::Back(self.number_or(1)?))
    }

    // What comes after `trace`.
    fn trace(&mut self) -> Result<DebugCommand<'a>, Mistake> {
        let count = self.number_or(10)?;
        let node = if self.is_empty() {
            None
        } else {
            Some(self.small()?)
        };
        Ok(DebugCommand::Trace { count, node })
    }

    fn memory(&mut self) -> Result<DebugCommand<'a>, Mistake> {
        Ok(DebugCommand::Memory {
            node: self.small()?,
            address: self.address()?,
            count: self.number_or(16)?,
        })
    }

    fn events(&mut self) -> Result<DebugCommand<'a>, Mistake> {
        let from = if self.is_empty() {
            None
        } else {
            Some(self.number(u64::MAX)?)
        };
        let count = self.number_or(10)?;
        Ok(DebugCommand::Events { from, count })
    }

    fn code(&mut self) -> Result<DebugCommand<'a>, Mistake> {
        let node = self.small()?;
        let address = if self.is_empty() {
            None
        } else {
            Some(self.address()?)
        };
        Ok(DebugCommand::Code { node, address })
    }

    fn variables(&mut self) -> Result<DebugCommand<'a>, Mistake> {
        let node = self.small()?;
        let name = if self.is_empty() {
            None
        } else {
            Some(self.word()?)
        };
        Ok(DebugCommand::Variables { node, name })
    }

    fn why(&mut self) -> Result<DebugCommand<'a>, Mistake> {
        if self.is_empty() {
            return Ok(DebugCommand::Why(None));
        }
        Ok(DebugCommand::Why(Some(self.small()?)))
    }

    fn program(&mut self) -> Result<DebugCommand<'a>, Mistake> {
        let node = self.small()?;
        let file = self.word()?;
        Ok(DebugCommand::Program { node, file })
    }

    // What comes after the first word.
    fn command(&mut self, verb: FirstWord) -> Result<DebugCommand<'a>, Mistake> {
        match verb {
            FirstWord::Events => self.events(),
            FirstWord::Go => Ok(DebugCommand::Go(self.number(u64::MAX)?)),
            FirstWord::Next => Ok(DebugCommand::Next(self.number_or(1)?)),
            FirstWord::Trace => self.trace(),
            FirstWord::Back => self.back(),
            FirstWord::Until => Ok(DebugCommand::Until(self.take_sought()?)),
            FirstWord::Look => Ok(DebugCommand::Look),
            FirstWord::Registers => Ok(DebugCommand::Registers(self.small()?)),
            FirstWord::Memory => self.memory(),
            FirstWord::Code => self.code(),
            FirstWord::Variables => self.variables(),
            FirstWord::Queue => Ok(DebugCommand::Queue(self.small()?)),
            FirstWord::Links => Ok(DebugCommand::Links(self.small()?)),
            FirstWord::Hosts => Ok(DebugCommand::Hosts),
            FirstWord::Switch => Ok(DebugCommand::Switch),
            FirstWord::Why => self.why(),
            FirstWord::Program => self.program(),
            FirstWord::Help => Ok(DebugCommand::Help),
            FirstWord::Quit => Ok(DebugCommand::Quit),
        }
    }

    // The command that this word begins, with all words after it.
    fn whole_command(&mut self, name: &str) -> Result<DebugCommand<'a>, Mistake> {
        let Some(verb) = value_named(&FIRST_WORDS, name) else {
            return Err(Mistake::NoCommand);
        };
        self.verb = verb;
        let command = self.command(verb)?;
        match self.next_word() {
            Some(_) => Err(Mistake::Unexpected),
            None => Ok(command),
        }
    }
}

/// The command of a line.
pub fn read_command(line: &str) -> Result<DebugCommand<'_>, CommandFault<'_>> {
    let mut words = CommandWords {
        rest: line.trim(),
        last: "",
        verb: FirstWord::Help,
    };
    let Some(name) = words.next_word() else {
        return Ok(DebugCommand::Nothing);
    };
    match words.whole_command(name) {
        Ok(command) => Ok(command),
        Err(mistake) => Err(CommandFault {
            word: words.last,
            mistake,
            verb: words.verb,
        }),
    }
}
