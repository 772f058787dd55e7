//! The plain lines into which a shorthand line is spelled out.

use crate::expanding::{Expansion, LoadedFile};
use crate::form::{Shorthand, ShorthandLine};
use crate::loading::loading_lines;
use lab_words::ShownWord;
use script_lines::{LineWords, parse_target};
use script_text::TextWriter;
use shorthand_lines::{ShorthandFault, ShorthandVerb, parse_shorthand};
use std::alloc::{AllocError, Global};

const NO_PORT: &str = " is no port number: decimal digits, 0 to 31";

const NO_HOST: &str = " is no host number: decimal digits, 0 to 255";

const NO_TEXT: &str =
    " is no text in quotes, of a character at least, with the escapes \\n \\r \\t \\0 \\\\ \\\" and \\x41";

const NO_FILE: &str = " is no file that can be read";

/// Appends the plain lines of a shorthand line, or why there are none.
pub fn spell_out(
    alloc: Global,
    expansion: &mut Expansion,
    line: ShorthandLine<'_>,
    files: &[LoadedFile<'_>],
) {
    match line.shorthand {
        Shorthand::Load => spell_load(alloc, expansion, line, files),
        Shorthand::Asks(verb) => spell_asked(alloc, expansion, line, verb),
    }
}

fn spell_asked(
    alloc: Global,
    expansion: &mut Expansion,
    line: ShorthandLine<'_>,
    verb: ShorthandVerb,
) {
    match parse_shorthand(alloc, verb, LineWords::of(line.rest.as_bytes())) {
        Ok(command) => expansion.push_command(line.user, &command),
        Err(ShorthandFault::NoMemory) => expansion.text.keep_failure(Err(AllocError)),
        Err(ShorthandFault::TooManyWords) => refuse_words(&mut expansion.wrong, line, verb),
        Err(fault) => refuse_words_of(&mut expansion.wrong, line, fault),
    }
}

fn spell_load(
    alloc: Global,
    expansion: &mut Expansion,
    line: ShorthandLine<'_>,
    files: &[LoadedFile<'_>],
) {
    let (host, name) = line.halves();
    if parse_target(host.as_bytes()).is_err() {
        refuse(&mut expansion.wrong, line, host, NO_HOST);
        return;
    }
    let program = files
        .iter()
        .find(|file| file.name == name)
        .and_then(|file| file.text.as_ref());
    match program {
        Some(program) => spell_program(alloc, expansion, line, program.as_slice()),
        None => refuse(&mut expansion.wrong, line, name, NO_FILE),
    }
}

fn spell_program(
    alloc: Global,
    expansion: &mut Expansion,
    line: ShorthandLine<'_>,
    program: &[u8],
) {
    let (host, name) = line.halves();
    match loading_lines(alloc, line.user, host, name, program) {
        Ok(lines) => expansion.text.push(lines.as_str()),
        Err(fault) => {
            line.write_head(&mut expansion.wrong);
            expansion.wrong.push(name);
            let written = write!(expansion.wrong.as_mut_string(), ": {fault}\n");
            expansion.wrong.keep_failure(written);
        }
    }
}

// Tells that there are more words than the line should have. All that comes after `text` is shown as its host's number.
fn refuse_words(text: &mut TextWriter, line: ShorthandLine<'_>, verb: ShorthandVerb) {
    if matches!(verb, ShorthandVerb::Text) {
        refuse(text, line, line.rest, NO_HOST);
        return;
    }
    line.write_head(text);
    text.push("too many words: ");
    line.write_form(text);
    if line.rest.ends_with(" ") {
        text.push(" (there is a space at the end of the line)");
    }
    text.push("\n");
}

// Tells which word after the verb is wrong, or that one is missing.
fn refuse_words_of(text: &mut TextWriter, line: ShorthandLine<'_>, fault: ShorthandFault) {
    let (first, behind) = line.halves();
    match fault {
        ShorthandFault::FirstPort => refuse(text, line, first, NO_PORT),
        ShorthandFault::SecondPort => refuse(text, line, behind, NO_PORT),
        ShorthandFault::Host => refuse(text, line, first, NO_HOST),
        ShorthandFault::Text => refuse(text, line, behind, NO_TEXT),
        ShorthandFault::TooFewWords | ShorthandFault::TooManyWords | ShorthandFault::NoMemory => {
            refuse(text, line, "", "");
        }
    }
}

// Tells what is wrong with a word; or, if it is missing, what the line should be.
fn refuse(text: &mut TextWriter, line: ShorthandLine<'_>, word: &str, wrong: &str) {
    line.write_head(text);
    if word.is_empty() {
        text.push("too few words: ");
        line.write_form(text);
    } else {
        let shown = ShownWord::of(word);
        let written = write!(text.as_mut_string(), "{shown}");
        text.keep_failure(written);
        text.push(wrong);
        if word.ends_with(" ") {
            text.push(" (there is a space at the end of the line)");
        }
    }
    text.push("\n");
}
