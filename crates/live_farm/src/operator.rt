//! The operator.
ghost use Rattle.std.specs.Prelude.{◌≡◌, ◌<◌};
ghost use Rattle.farm_service.specs.Services.{IsItsOperator};

use crate::farm_users::FarmUsers;
use crate::record::RecordState;
use crate::station::Station;
use crate::texts::LiveAnswer;
use domain_core::NoMemory;
use farm_service::{DomainStatus, RoomStatus, Service};
use plan_checker::UserNumber;
use std::alloc::Global;
use std::fs::File;
use std::os::unix::fs::FileExt;
use std::sync::Wait;
use switch_table::OperatorSeat;

/// The operator at a service, with a seat at its table.
#[derive(Drop)]
pub struct Operator<'a> {
    service: &'a Service,
    seat: OperatorSeat,
    gauge: Option<File>,
    ghost its: { IsItsOperator service.now seat },
}

// What is added to the line of a user if the record of the user's domain is replayed, or what it answers isn't recorded.
fn record_word(station: &Station<'_>) -> &'static str {
    if station.meter.is_under_way() {
        return " replaying";
    }
    match station.record_state() {
        RecordState::Kept => "",
        RecordState::Unrecorded => " unrecorded",
        RecordState::Out => " out",
    }
}

// The line of a user: how many of the user's lines were answered, what the user's domain has done and in which state it is, and
// how much it takes of its room and of the room of its records.
fn line_of(
    alloc: Global,
    name: &str,
    answered: u64,
    status: DomainStatus,
    room: u64,
    station: &Station<'_>,
) -> Result<LiveAnswer, NoMemory> {
    let word = if status.is_quiet { "quiet" } else { "busy" };
    let DomainStatus {
        recorded,
        limit,
        room: RoomStatus { bytes, rests, .. },
        ..
    } = status;
    let state = record_word(station);
    let rest = if rests.is_some() { " rests" } else { "" };
    let (records, record_room) = (station.record_bytes(), station.record_room());
    LiveAnswer::line(format!(in alloc;
        "!users {name} {answered} {recorded} {limit} {word}{state}{rest} {bytes} {room} {records} {record_room}"
    )?)
}

/// How many bytes a page of memory has.
const PAGE_BYTES: u64 = 4096;

// How many bytes of memory the program has, as the system says in the second word of a gauge, in pages.
fn resident_bytes(gauge: &File) -> Option<u64> {
    let mut bytes = [0u8; 128];
    let count = gauge.read_at(&mut bytes, 0).ok()?;
    let text = std::str::from_utf8(bytes.get(..count)?).ok()?;
    let pages = text.split(' ').nth(1)?.parse::<u64>().ok()?;
    pages.checked_mul(PAGE_BYTES)
}

impl<'a> Operator<'a> {
    /// The operator with a seat of this service. The gauge is the file in which the system says how many pages of memory the
    /// program has.
    pub fn new(service: &'a Service, seat: OperatorSeat, gauge: Option<File>) -> Operator<'a>
        requires { IsItsOperator service.now seat }
    {
        Operator {
            service,
            seat,
            gauge,
        }
    }

    /// How many bytes of memory the program has, and how many all rooms may take together.
    pub fn memory(&self, alloc: Global) -> Result<LiveAnswer, NoMemory> {
        let resident = match &self.gauge {
            Some(gauge) => resident_bytes(gauge).unwrap_or(0),
            None => 0,
        };
        let domains = u64::from(self.service.plan().domains());
        let rooms = domains.saturating_mul(self.service.room().bytes());
        LiveAnswer::line(format!(in alloc; "!memory {resident} {rooms}")?)
    }

    /// The words of all outputs, each with the output's number, by one atomic load each.
    pub fn words(&mut self, alloc: Global) -> Result<LiveAnswer, NoMemory> {
        let mut text = format!(in alloc; "!words")?;
        for output in 0..32u8 {
            let word = self.service.survey(&mut self.seat, output);
            let bits = word.bits;
            write!(text, " {output}:{bits:x}")?;
        }
        LiveAnswer::line(text)
    }

    /// What a user has done: how many of the user's lines were answered, and the state of the user's domain and of its record.
    pub fn user<R: Wait>(
        &self,
        rt: &R,
        alloc: Global,
        farm_users: &FarmUsers<'_>,
        place: usize,
    ) -> Result<Option<LiveAnswer>, NoMemory> {
        let (Some(name), Some(whose)) = (farm_users.names.get(place), farm_users.numbers.get(place))
        else {
            return Ok(None);
        };
        let UserNumber { domain, user } = *whose;
        let Some(station) = farm_users.stations.get(usize::from(domain)) else {
            return Ok(None);
        };
        let Some(status) = self.status(rt, domain, station) else {
            return Ok(None);
        };
        let (answered, room) = (station.answered_lines(user), self.service.room().bytes());
        Ok(Some(line_of(alloc, name, answered, status, room, station)?))
    }

    // How it is with a domain. One that is replayed has done that many Steps, and its lock isn't waited for.
    fn status<R: Wait>(&self, rt: &R, domain: u8, station: &Station<'_>) -> Option<DomainStatus> {
        if !station.meter.is_under_way() {
            return self.service.status(rt, domain).ok();
        }
        if domain >= self.service.plan().domains() {
            return None;
        }
        Some(DomainStatus {
            recorded: station.meter.steps(),
            limit: self.service.plan().part(domain).limit(),
            is_quiet: false,
            room: RoomStatus {
                bytes: 0,
                room_bytes: self.service.room().bytes(),
                rests: None,
            },
        })
    }
}
