//! The threads of a farm that stays up.

use crate::dispatcher::Dispatcher;
use crate::failure::LiveStop;
use crate::farm_users::FarmUsers;
use crate::operator::Operator;
use crate::outlet::SharedOutlet;
use crate::outputs::LiveOutputs;
use crate::record::SharedRecord;
use crate::replay::Replay;
use crate::station::{Station, serve};
use record_files::Notices;
use std::alloc::Global;
use std::io::BufRead;
use std::sync::Wait;
use std::thread;
use std::thread::Threads;
use std::time::Duration;

/// How many events a domain may record in the time of [`PACE_MILLISECONDS`], once half of its limit is recorded. The other half of
/// the greatest limit, 2^39 events, then lasts 30 hours.
const PACED_EVENTS: u64 = 500_000;

/// See [`PACED_EVENTS`].
const PACE_MILLISECONDS: u64 = 100;

// Starts a thread for each station of a list, and one that keeps the pace of programs that never end.
fn run_stations<
    R: Threads + Wait + Sync,
    K: SharedRecord + Sync,
    P: Replay<K> + Sync,
    I: BufRead,
    O: SharedOutlet + Sync,
    N: Notices + Sync,
>(
    rt: &R,
    stations: &[Station<'_>],
    dispatcher: &Dispatcher<'_, '_, FarmUsers<'_>>,
    outputs: &LiveOutputs<'_, K, P, O, N>,
    operator: &mut Operator<'_>,
    input: &mut I,
) -> Result<(), LiveStop> {
    let alloc = dispatcher.alloc;
    let (records, replays) = (outputs.records, outputs.replays);
    let (outlet, errors) = (outputs.outlet, outputs.errors);
    thread::scope(thread::scope_env(), rt, |scope| {
        let service = dispatcher.farm_users.service;
        let interval = Duration::from_millis(PACE_MILLISECONDS);
        let mut started = scope
            .spawn(move || service.keep_pace(rt, PACED_EVENTS, interval))
            .is_ok();
        for ((station, record), replay) in stations.iter().zip(records).zip(replays) {
            station.note(record.state(rt));
            station.note_sizes(record.sizes(rt));
            station.meter.note_under_way(replay.is_left(rt));
            if scope
                .spawn(move || serve(rt, alloc, station, record, replay, outlet, errors))
                .is_err()
            {
                started = false;
                break;
            }
        }
        let ended = if started {
            dispatcher.read_lines(rt, outlet, operator, input, errors)
        } else {
            Err(LiveStop::Threads)
        };
        for station in stations {
            // A replay that no line waits for is of no use any more.
            if !station.mailbox.close(rt) {
                station.meter.end();
            }
        }
        service.end_pacing();
        ended
    })
}

/// Answers all lines, each domain's with the record of its place, up to the end of the input, or until the operator stops. If a thread can't
/// be started no line is read. All threads have ended when the call returns.
pub fn run_farm_users<
    R: Threads + Wait + Sync,
    K: SharedRecord + Sync,
    P: Replay<K> + Sync,
    I: BufRead,
    O: SharedOutlet + Sync,
    N: Notices + Sync,
>(
    rt: &R,
    alloc: Global,
    farm_users: &FarmUsers<'_>,
    outputs: &LiveOutputs<'_, K, P, O, N>,
    operator: &mut Operator<'_>,
    input: &mut I,
) -> Result<(), LiveStop> {
    let dispatcher = Dispatcher {
        farm_users,
        sender: farm_users,
        alloc,
    };
    run_stations(
        rt,
        farm_users.stations.as_slice(),
        &dispatcher,
        outputs,
        operator,
        input,
    )?;
    dispatcher.look(rt, outputs.outlet)
}
