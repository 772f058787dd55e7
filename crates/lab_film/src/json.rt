//! What a film shows of a line of a record, as it is written in JSON.

use crate::NoMemory;
use crate::changes::FrameChanges;
use answer_text::write_reply;
use bootstrap::Packet;
use domain_core::{By, Event, Reply};
use event_text::write_event;
use record_following::{CallOutcome, RecordedLine};
use serde::Serialize;
use std::alloc::{AllocError, Global};

/// A packet that a Move found. It is an acknowledge if it has no byte.
#[derive(Drop, Serialize)]
struct PacketTold {
    #[serde(skip_serializing_if = "Option::is_none")]
    byte: Option<u8>,
    /// The outputs that its port drove, as a mask.
    drives: u32,
}

/// What a film shows of a line: what it asks and is answered, and what changed from frame to frame.
#[derive(Serialize)]
pub struct LineTold {
    /// The number of the line in the whole text.
    line: u64,
    /// How many Steps it asks, if it asks several.
    #[serde(skip_serializing_if = "Option::is_none")]
    times: Option<u64>,
    /// How many of them were done before the first frame of the film, if some were.
    #[serde(skip_serializing_if = "Option::is_none")]
    done: Option<u64>,
    /// The user who asks, or none if the farm does.
    #[serde(skip_serializing_if = "Option::is_none")]
    user: Option<u8>,
    asks: String,
    /// The answer, of several Steps that to the last one.
    answer: String,
    #[serde(skip_serializing_if = "Option::is_none")]
    packet: Option<PacketTold>,
    then: Vec<FrameChanges>,
}

// Dropped by hand, since a derived `Drop` makes callers prove the drop of each field.
impl Drop for LineTold {
    fn drop(self) {
        let LineTold {
            line: _,
            times: _,
            done: _,
            user: _,
            asks: _,
            answer: _,
            packet: _,
            then: _,
        } = self;
    }
}

/// The frames of a line: what its last events came to, and what changed from frame to frame.
#[derive(Drop)]
pub struct LineFrames {
    pub outcome: Option<CallOutcome>,
    pub then: Vec<FrameChanges>,
}

impl LineFrames {
    /// The last answer.
    pub fn reply(&self) -> Option<Reply> {
        Some(self.outcome?.reply)
    }
}

// A number if it is more than the usual one.
fn if_more(number: u64, usual: u64) -> Option<u64> {
    if number > usual { Some(number) } else { None }
}

fn packet_told(outcome: Option<CallOutcome>) -> Option<PacketTold> {
    let found = outcome?.port?;
    Some(PacketTold {
        byte: match found.packet? {
            Packet::Byte(byte) => Some(byte),
            Packet::Ack => None,
        },
        drives: found.drives,
    })
}

fn event_text(alloc: Global, event: Event) -> Result<String, NoMemory> {
    let mut text = String::new(alloc);
    write_event(&mut text, event)?;
    Ok(text)
}

fn reply_text(alloc: Global, reply: Option<Reply>) -> Result<String, NoMemory> {
    let mut text = String::new(alloc);
    if let Some(reply) = reply {
        write_reply(&mut text, reply)?;
    }
    Ok(text)
}

/// What a film shows of a line, if `done` of its Steps were done before its first frame.
pub fn line_told(
    alloc: Global,
    line: &RecordedLine,
    done: u64,
    frames: LineFrames,
) -> Result<LineTold, NoMemory> {
    let reply = frames.reply();
    let LineFrames { outcome, then } = frames;
    Ok(LineTold {
        line: line.number,
        times: if_more(line.call.times, 1),
        done: if_more(done, 0),
        user: match line.call.by {
            By::User(user) => Some(user),
            By::Farm => None,
        },
        asks: event_text(alloc, line.call.event)?,
        answer: reply_text(alloc, reply)?,
        packet: packet_told(outcome),
        then,
    })
}

/// What was written in JSON. All that is written are numbers and texts, for which a writer lacks nothing but memory.
pub fn json_text(written: Result<String, serde_json::Error>) -> Result<String, NoMemory> {
    match written {
        Ok(text) => Ok(text),
        Err(_) => Err(AllocError),
    }
}
