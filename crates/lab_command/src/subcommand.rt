//! The subcommands: their names, their arguments, and what the help says of them.

use crate::arguments::Argument;

/// A subcommand of the lab.
#[derive(Clone, Copy)]
pub(crate) enum Subcommand {
    Replay,
    Plan,
    Trace,
    Assemble,
    Disassemble,
    Occam,
    Rows,
    Why,
    Film,
    Expand,
    Run,
    Debug,
}

impl Subcommand {
    /// The one of this name.
    pub(crate) fn of(name: &str) -> Option<Subcommand> {
        for subcommand in &SUBCOMMANDS {
            if subcommand.name() == name {
                return Some(*subcommand);
            }
        }
        None
    }

    pub(crate) fn name(self) -> &'static str {
        match self {
            Subcommand::Replay => "replay",
            Subcommand::Plan => "plan",
            Subcommand::Trace => "trace",
            Subcommand::Assemble => "assemble",
            Subcommand::Disassemble => "disassemble",
            Subcommand::Occam => "occam",
            Subcommand::Rows => "rows",
            Subcommand::Why => "why",
            Subcommand::Film => "film",
            Subcommand::Expand => "expand",
            Subcommand::Run => "run",
            Subcommand::Debug => "debug",
        }
    }

    /// Whether it reads standard input, and no file.
    pub(crate) fn reads_input(self) -> bool {
        !matches!(
            self,
            Subcommand::Occam
                | Subcommand::Rows
                | Subcommand::Why
                | Subcommand::Film
                | Subcommand::Expand
                | Subcommand::Run
                | Subcommand::Debug
        )
    }

    /// What may come after it.
    pub(crate) fn arguments(self) -> &'static [Argument] {
        match self {
            Subcommand::Replay => &[Argument::Steps],
            Subcommand::Trace => &[
                Argument::Boot,
                Argument::Booted,
                Argument::Plan,
                Argument::TracedDomain,
                Argument::TracedSteps,
                Argument::Until,
                Argument::Input,
            ],
            Subcommand::Assemble => &[Argument::Listing, Argument::Pokes],
            Subcommand::Occam => &[
                Argument::Occam,
                Argument::Code,
                Argument::Listing,
                Argument::Pokes,
                Argument::Core,
                Argument::Sizes,
                Argument::Memory,
            ],
            Subcommand::Rows => &[Argument::Files, Argument::Steps],
            Subcommand::Why => &[
                Argument::Record,
                Argument::At,
                Argument::Program,
                Argument::Steps,
            ],
            Subcommand::Film => &[
                Argument::Record,
                Argument::From,
                Argument::Count,
                Argument::Program,
                Argument::Json,
                Argument::Steps,
            ],
            Subcommand::Expand => &[Argument::Script],
            Subcommand::Run => &[Argument::Script, Argument::RecordedDomain, Argument::Steps],
            Subcommand::Debug => &[Argument::Record, Argument::Program, Argument::Steps],
            Subcommand::Plan | Subcommand::Disassemble => &[],
        }
    }

    /// What the help says of it.
    pub(crate) fn about(self) -> &'static str {
        match self {
            Subcommand::Replay => {
                "Answers single events on farms: reads a plan, a line ---, and events or users' lines, one a line"
            }
            Subcommand::Plan => {
                "Shows the domains, users, ports and devices of a plan, or where and why it is refused"
            }
            Subcommand::Trace => {
                "Traces a node alone, or all nodes of a plan's domain: reads lines that set a node and let it do Steps"
            }
            Subcommand::Assemble => {
                "Prints a program as code in hexadecimal digits: reads its text, an instruction a line"
            }
            Subcommand::Disassemble => {
                "Prints code as text: reads hexadecimal digits, and prints an instruction a line"
            }
            Subcommand::Occam => {
                "Compiles a program of occam: prints it as a text for assemble, as code, or as its core"
            }
            Subcommand::Rows => {
                "Compares the answers of worked rows with those that their files expect"
            }
            Subcommand::Why => {
                "Says why each node waits, halted or runs on: reads the record of a domain"
            }
            Subcommand::Film => {
                "Shows the record of a domain as a film: prints a page that a browser opens"
            }
            Subcommand::Expand => {
                "Spells out the shorthand lines of a script: reads a plan, a line ---, and a script"
            }
            Subcommand::Run => {
                "Runs a script as farm does, on one thread: reads a plan, a line ---, and a script, whose lines may help"
            }
            Subcommand::Debug => {
                "Goes to any moment of a domain's record, and shows it: reads commands, of which help is one"
            }
        }
    }
}

/// All of them, in the order of the help.
pub(crate) const SUBCOMMANDS: [Subcommand; 12] = [
    Subcommand::Replay,
    Subcommand::Plan,
    Subcommand::Trace,
    Subcommand::Assemble,
    Subcommand::Disassemble,
    Subcommand::Occam,
    Subcommand::Rows,
    Subcommand::Why,
    Subcommand::Film,
    Subcommand::Expand,
    Subcommand::Run,
    Subcommand::Debug,
];
