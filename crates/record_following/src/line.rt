//! A line of a record.

use crate::fault::FollowFault;
use answer_text::write_reply;
use domain_core::Reply;
use farm_records::{CallLine, RecordedCall, read_call};
use std::alloc::Global;

/// A line: its number in the whole text, what was called, and the answer, if it says one.
#[derive(Clone, Copy)]
pub struct RecordedLine<'a> {
    pub number: u64,
    pub call: RecordedCall,
    pub answer: Option<&'a str>,
}

/// The line of this number in a whole text. A record has domain 0 alone. That is tested here, since what follows lines compares
/// their answers, and not whole lines as one that does a record again (`redo_line`).
pub fn read_line<'a>(
    alloc: Global,
    number: u64,
    text: &'a str,
) -> Result<RecordedLine<'a>, FollowFault> {
    match read_call(alloc, text)? {
        Some(
            CallLine {
                domain: 0,
                call,
                answer,
            },
        ) => Ok(RecordedLine {
            number,
            call,
            answer,
        }),
        _ => Err(FollowFault::NoEvent),
    }
}

/// Compares what a domain answered to the last events of a line with what the line says: the answer to each, or of several
/// events their number and that answer.
///
/// # Errors
///
/// `Differs` if the line says otherwise; `Memory`.
pub fn check_answer(alloc: Global, line: &RecordedLine, reply: Reply) -> Result<(), FollowFault> {
    let Some(said) = line.answer else {
        return Ok(());
    };
    let mut answer = String::new(alloc);
    write_reply(&mut answer, reply)?;
    if answer.as_str() == said {
        return Ok(());
    }
    let times = line.call.times;
    let several = format!(in alloc; "{times} {answer}")?;
    if times > 1 && several.as_str() == said {
        Ok(())
    } else {
        Err(FollowFault::Differs)
    }
}
