//! Reading a line of a record.

use domain_core::{By, Event};
use event_text::{RepeatedRequest, read_request};
use lab_words::WordFault;
use std::alloc::Global;

/// What is between a call and its answer.
const BEFORE_THE_ANSWER: &str = " = ";

/// A call of a record's domain, and how often it was made.
#[derive(Clone, Copy)]
pub struct RecordedCall {
    pub times: u64,
    pub by: By,
    pub event: Event,
}

/// What a line says: a call of a domain, and the answer, if there is one.
#[derive(Clone, Copy)]
pub struct CallLine<'a> {
    /// The number of the domain. In a record it is 0.
    pub domain: u8,
    pub call: RecordedCall,
    pub answer: Option<&'a str>,
}

/// What a line says that asks one event of a domain. `None` if it asks anything else.
pub fn read_call<'a>(alloc: Global, line: &'a str) -> Result<Option<CallLine<'a>>, WordFault> {
    let (asked, answer) = match line.split_once(BEFORE_THE_ANSWER) {
        Some((asked, answer)) => (asked, Some(answer)),
        None => (line, None),
    };
    let RepeatedRequest { times, request } = read_request(alloc, asked)?;
    let Some((domain, by, event)) = request.one_event() else {
        return Ok(None);
    };
    let call = RecordedCall { times, by, event };
    Ok(Some(CallLine {
        domain,
        call,
        answer,
    }))
}
