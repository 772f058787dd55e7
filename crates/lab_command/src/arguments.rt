//! The arguments of the subcommands.

use clap::{Arg, ArgAction, value_parser};
use std::alloc::Global;

// What is written for an argument.
#[derive(Clone, Copy)]
enum Form {
    // An option with a word.
    Word,
    // The same, which may be given several times.
    Words,
    // An option with two words, which may be given several times.
    Pairs,
    // An option with a number.
    Number,
    // The same, with this number unless it is given.
    NumberOr(&'static str),
    // An option with the number of a domain.
    Domain,
    // An option that is given or isn't.
    Flag,
    // A word by itself, which must be given.
    Required,
    // A word by itself, which may be given.
    Optional,
    // One word by itself, or several.
    Several,
}

/// An argument of a subcommand.
#[derive(Clone, Copy)]
pub(crate) enum Argument {
    Boot,
    Booted,
    Plan,
    TracedDomain,
    TracedSteps,
    Steps,
    Until,
    Input,
    Files,
    Record,
    Script,
    RecordedDomain,
    At,
    From,
    Count,
    Json,
    Program,
    Listing,
    Pokes,
    Occam,
    Code,
    Core,
    Sizes,
    Memory,
}

// How an argument is written, and what the help says of it.
#[derive(Clone, Copy)]
struct ArgumentWords {
    name: &'static str,
    // How the help calls what is given.
    value: &'static str,
    help: &'static str,
    form: Form,
}

impl Argument {
    fn words(self) -> ArgumentWords {
        match self {
            Argument::Boot => argument_words(
                "boot",
                "HEX",
                Form::Word,
                "Boots a node with this code and traces it, in place of reading lines",
            ),
            Argument::Booted => argument_words(
                "program",
                "FILE",
                Form::Word,
                "The same with the code of the program in this file; its labels and lines are shown. Of occam if the name ends with .occ",
            ),
            Argument::Plan => argument_words(
                "plan",
                "SCRIPT",
                Form::Word,
                "Runs the plan and script in this file, and traces all nodes of a domain and the packets between them",
            ),
            Argument::TracedDomain => argument_words(
                "domain",
                "D",
                Form::Domain,
                "The number of the domain that --plan traces, 0 unless given",
            ),
            Argument::TracedSteps => argument_words(
                "steps",
                "N",
                Form::Number,
                "How many Steps of booted code are traced at most, 1000 unless given; how many the lines, or the script of a plan, may do in all",
            ),
            Argument::Steps => argument_words(
                "steps",
                "N",
                Form::Number,
                "How many Steps may be done in all; more end it with status 7",
            ),
            Argument::Until => argument_words(
                "until",
                "ADDRESS",
                Form::Word,
                "Stops the trace of booted code before the instruction at this address, or at this label of the program",
            ),
            Argument::Input => argument_words(
                "input",
                "LINK:HEX",
                Form::Words,
                "Sends these bytes to the booted code by this link, each when the one before it is taken",
            ),
            Argument::Files => argument_words(
                "file",
                "FILE",
                Form::Several,
                "Files of rows: plans if the name ends with .plans, programs if it ends with .assembly or .occam, wrong lines if it ends with .mistakes, for replay if it ends with .replay, and else for trace",
            ),
            Argument::Record => argument_words(
                "record",
                "RECORD",
                Form::Required,
                "The record of a domain, as live --record writes it",
            ),
            Argument::Script => argument_words(
                "script",
                "SCRIPT",
                Form::Optional,
                "The file of the plan and the script, in place of standard input; the files that it loads stand beside it",
            ),
            Argument::RecordedDomain => argument_words(
                "record",
                "D",
                Form::Domain,
                "Prints the record of the domain of this number in the plan, and not the answers",
            ),
            Argument::At => argument_words(
                "at",
                "N",
                Form::Number,
                "Looks after the first N events of the record, and not at its end",
            ),
            Argument::From => argument_words(
                "from",
                "N",
                Form::NumberOr("0"),
                "Begins after the first N events of the record",
            ),
            Argument::Count => argument_words(
                "count",
                "N",
                Form::NumberOr("100000"),
                "How many frames are shown at most",
            ),
            Argument::Json => argument_words(
                "json",
                "",
                Form::Flag,
                "Prints the film as JSON, which other programs read, in place of the page",
            ),
            Argument::Program => argument_words(
                "program",
                "K FILE",
                Form::Pairs,
                "Takes the lines of node K, with labels or variables, from its program in this file; of occam if the name ends with .occ",
            ),
            Argument::Listing => argument_words(
                "listing",
                "",
                Form::Flag,
                "Prints addresses and bytes beside the text",
            ),
            Argument::Pokes => argument_words(
                "pokes",
                "HOST USER",
                Form::Pairs,
                "Prints the lines of a script by which this user loads the code at this host",
            ),
            Argument::Occam => argument_words(
                "file",
                "FILE",
                Form::Required,
                "The text of the program",
            ),
            Argument::Code => argument_words(
                "code",
                "",
                Form::Flag,
                "Prints the code in hexadecimal digits, as a boot takes it",
            ),
            Argument::Core => argument_words(
                "core",
                "",
                Form::Flag,
                "Prints what is compiled as occam: without PROCs and abbreviations, each name declared once",
            ),
            Argument::Sizes => argument_words(
                "sizes",
                "",
                Form::Flag,
                "Prints how many bytes the program takes, and how many each PROC",
            ),
            Argument::Memory => argument_words(
                "memory",
                "N",
                Form::Number,
                "How many bytes of memory the node has, 65536 unless given; a program that needs more is refused",
            ),
        }
    }

    /// Whether this is its name.
    pub(crate) fn is(self, name: &str) -> bool {
        self.words().name == name
    }
}

fn argument_words(
    name: &'static str,
    value: &'static str,
    form: Form,
    help: &'static str,
) -> ArgumentWords {
    ArgumentWords {
        name,
        value,
        help,
        form,
    }
}

// A word by itself.
fn word_of<'a>(alloc: Global, argument: ArgumentWords) -> Arg<'a> {
    Arg::new(alloc, argument.name)
        .value_name(argument.value)
        .help(argument.help)
        .action(ArgAction::Set)
}

// An option with a word.
fn option_of<'a>(alloc: Global, argument: ArgumentWords) -> Arg<'a> {
    word_of(alloc, argument).long(argument.name)
}

fn number_option<'a>(alloc: Global, argument: ArgumentWords) -> Arg<'a> {
    option_of(alloc, argument).value_parser(value_parser!(u64))
}

fn domain_of<'a>(alloc: Global, argument: ArgumentWords) -> Arg<'a> {
    option_of(alloc, argument).value_parser(value_parser!(u8))
}

fn pairs_of<'a>(alloc: Global, argument: ArgumentWords) -> Arg<'a> {
    option_of(alloc, argument)
        .num_args(2)
        .action(ArgAction::Append)
}

fn flag_of<'a>(alloc: Global, argument: ArgumentWords) -> Arg<'a> {
    Arg::new(alloc, argument.name)
        .long(argument.name)
        .help(argument.help)
        .action(ArgAction::SetTrue)
}

fn several_of<'a>(alloc: Global, argument: ArgumentWords) -> Arg<'a> {
    word_of(alloc, argument)
        .required(true)
        .num_args(1..)
        .action(ArgAction::Append)
}

/// The argument, as the parser takes it.
pub(crate) fn arg_of<'a>(alloc: Global, argument: Argument) -> Arg<'a> {
    let argument = argument.words();
    match argument.form {
        Form::Word => option_of(alloc, argument),
        Form::Words => option_of(alloc, argument).action(ArgAction::Append),
        Form::Pairs => pairs_of(alloc, argument),
        Form::Number => number_option(alloc, argument),
        Form::NumberOr(usual) => number_option(alloc, argument).default_value(usual),
        Form::Domain => domain_of(alloc, argument),
        Form::Flag => flag_of(alloc, argument),
        Form::Required => word_of(alloc, argument).required(true),
        Form::Optional => word_of(alloc, argument),
        Form::Several => several_of(alloc, argument),
    }
}
