//! What is to be replayed of a domain before its lines are answered.
ghost use Rattle.farm_service.specs.Restarts.{AreInOrder};

use crate::record::NoRecord;
use domain_core::NoMemory;
use farm_service::{Service, Session};
use plan_checker::AcceptedPlan;
use record_files::{FileReplay, Notices, RecordFile, ReplayOutputs};
use record_keeping::{DomainRecord, RecordStore};
use std::alloc::Global;
use std::fs::{File, Files};
use std::sync::{Mutex, Wait};

/// What is to be replayed of a domain, whose record is a `K` then.
pub trait Replay<K> {
    /// Whether something is to be replayed yet.
    fn is_left<R: Wait>(&self, rt: &R) -> bool;

    /// Replays it on the domain of these sessions: see [`FileReplay::replay`].
    fn replay<R: Wait, N: Notices>(
        &self,
        rt: &R,
        service: &Service,
        domain: u8,
        sessions: &mut [Session<'_>],
        outputs: &ReplayOutputs<'_, K, N>,
    )
        ensures { AreInOrder domain sessions.old → AreInOrder domain sessions.new };
}

/// The same of a domain whose record is in a store.
pub trait StoreReplay<S: RecordStore> {
    /// As [`Replay::is_left`].
    fn is_left<R: Wait>(&self, rt: &R) -> bool;

    /// As [`Replay::replay`].
    fn replay<R: Wait, N: Notices>(
        &self,
        rt: &R,
        service: &Service,
        domain: u8,
        sessions: &mut [Session<'_>],
        outputs: &ReplayOutputs<'_, Mutex<DomainRecord<S>>, N>,
    )
        ensures { AreInOrder domain sessions.old → AreInOrder domain sessions.new };
}

impl<'a, F: Files<File = File>> StoreReplay<RecordFile<'a, F>> for FileReplay<'a, F> {
    fn is_left<R: Wait>(&self, rt: &R) -> bool {
        FileReplay::is_left(self, rt)
    }

    fn replay<R: Wait, N: Notices>(
        &self,
        rt: &R,
        service: &Service,
        domain: u8,
        sessions: &mut [Session<'_>],
        outputs: &ReplayOutputs<'_, Mutex<DomainRecord<RecordFile<'a, F>>>, N>,
    ) {
        FileReplay::replay(self, rt, service, domain, sessions, outputs);
    }
}

impl<S: RecordStore, T: StoreReplay<S>> Replay<Mutex<DomainRecord<S>>> for T {
    fn is_left<R: Wait>(&self, rt: &R) -> bool {
        StoreReplay::is_left(self, rt)
    }

    fn replay<R: Wait, N: Notices>(
        &self,
        rt: &R,
        service: &Service,
        domain: u8,
        sessions: &mut [Session<'_>],
        outputs: &ReplayOutputs<'_, Mutex<DomainRecord<S>>, N>,
    ) {
        StoreReplay::replay(self, rt, service, domain, sessions, outputs);
    }
}

/// That nothing is to be replayed.
#[derive(Clone, Copy)]
pub struct NoReplay;

impl Replay<NoRecord> for NoReplay {
    fn is_left<R: Wait>(&self, _rt: &R) -> bool {
        false
    }

    fn replay<R: Wait, N: Notices>(
        &self,
        _rt: &R,
        _service: &Service,
        _domain: u8,
        _sessions: &mut [Session<'_>],
        _outputs: &ReplayOutputs<'_, NoRecord, N>,
    ) {}
}

/// As many times nothing to replay as the plan has domains.
///
/// # Errors
///
/// `NoMemory` if there is none for the list.
pub fn no_replays(alloc: Global, plan: &AcceptedPlan) -> Result<Vec<NoReplay>, NoMemory> {
    let mut replays = Vec::new(alloc);
    for _ in 0..plan.domains() {
        replays.push(NoReplay)?;
    }
    Ok(replays)
}
