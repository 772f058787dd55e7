//! The record of a domain, which threads share.
ghost use Rattle.std.specs.Prelude.{◌≡◌, ◌≢◌, ℕ, List, ⊤, IfErr, IfOk, OnOk};
ghost use Rattle.plan_rules.specs.Data.{DomainData};
ghost use Rattle.live_farm.specs.Kept.{HasKept};
ghost use Rattle.live_farm.specs.declared.record.RecordSizes.{RecordSizes as SpecSizes};

use crate::asked::AskedCommands;
use crate::failure::LiveFailure;
use domain_core::NoMemory;
use farm_service::Service;
use plan_checker::AcceptedPlan;
use record_files::{FileFailure, Notices, names_of};
use record_keeping::{DomainRecord, NotKept, RecordStore};
use std::alloc::Global;
use std::io;
use std::sync::{Mutex, Wait};

/// How it is with the record of a domain.
#[derive(Clone, Copy, PartialEq, Eq)]
pub enum RecordState {
    /// What was answered is recorded.
    Kept,
    /// Something isn't recorded, since it can't be written.
    Unrecorded,
    /// The record can't be taken, and the domain hasn't begun again since.
    Out,
}

// That a record isn't whole, with its place.
fn failure_of<S: RecordStore>(record: &DomainRecord<S>, alloc: Global) -> LiveFailure {
    match record.path(alloc) {
        Ok(path) => {
            LiveFailure::from(FileFailure::of_record(alloc, path.as_str(), "it isn't whole"))
        }
        Err(NoMemory) => LiveFailure::Memory,
    }
}

/// How many bytes the records of a domain take.
#[derive(Clone, Copy)]
pub struct RecordSizes {
    /// The one that is written to.
    pub newest: u64,
    /// Those before it.
    pub older: u64,
}

impl RecordSizes {
    /// All of them.
    pub fn all(self) -> u64 {
        self.newest.saturating_add(self.older)
    }
}

/// A record that a domain's thread uses, and at the end who closes the farm.
pub trait SharedRecord {
    // Holds after a call of `keep` that is Ok: of a domain of this number of a plan the record had at least this number of
    // commands.
    ghost has_kept: { Self → List DomainData → ℕ → ℕ → Type 0 } = { λ _ _ _ _. ⊤ };

    // Holds after a call of `keep`, whatever it came to: of a domain of this number of a plan the record was to have at least
    // this number of commands.
    ghost was_asked: { Self → List DomainData → ℕ → ℕ → Type 0 } = { λ _ _ _ _. ⊤ };

    // Holds after a call of `keep` whose error is `Out`.
    ghost was_out: { Self → Type 0 } = { λ _. ⊤ };

    // Holds after a call that says that something isn't recorded: an error of `keep`, or a state other than `Kept`.
    ghost has_lacked: { Self → Type 0 } = { λ _. ⊤ };

    // Holds after a call of `sizes` whose result is this.
    ghost had_sizes: { Self → SpecSizes → Type 0 } = { λ _ _. ⊤ };

    // Holds after a call of `bound` with this number of bytes.
    ghost was_bound: { Self → ℕ → Type 0 } = { λ _ _. ⊤ };

    /// As [`DomainRecord::keep`], for the domain that was asked.
    fn keep<R: Wait>(
        &self,
        rt: &R,
        service: &Service,
        asked: AskedCommands,
        begins_anew: bool,
    ) -> Result<(), NotKept>
        ensures kept { OnOk result (has_kept self.now service.now.plan asked.domain asked.commands) }
        ensures asked { was_asked self.now service.now.plan asked.domain asked.commands }
        ensures out { IfErr result (λ e. e ≡ NotKept.Out → was_out self.now) }
        ensures lacks { IfErr result (λ _. has_lacked self.now) };

    /// How it is with the record.
    fn state<R: Wait>(&self, rt: &R) -> RecordState
        ensures { result ≢ RecordState.Kept → has_lacked self.now };

    /// How many bytes the domain's records take.
    fn sizes<R: Wait>(&self, rt: &R) -> RecordSizes
        ensures { had_sizes self.now result };

    /// As [`DomainRecord::bound`].
    fn bound<R: Wait>(&self, rt: &R, bytes: u64)
        ensures { was_bound self.now bytes };

    /// As [`DomainRecord::remove_beyond`]. If nothing is recorded nothing is removed.
    fn remove_beyond<R: Wait>(&self, rt: &R) -> io::Result<Option<String>>;

    /// As [`DomainRecord::path`]; nowhere if nothing is recorded.
    fn path<R: Wait>(&self, rt: &R, alloc: Global) -> Result<Option<String>, NoMemory>;

    /// What the run says at its end of a record in which something is missing.
    fn failure<R: Wait>(&self, rt: &R, alloc: Global) -> LiveFailure;
}

impl<S: RecordStore> SharedRecord for Mutex<DomainRecord<S>> {
    ghost has_kept = { λ _ plan number asked. HasKept S.RecordStore S.whole plan number asked };

    fn keep<R: Wait>(
        &self,
        rt: &R,
        service: &Service,
        asked: AskedCommands,
        begins_anew: bool,
    ) -> Result<(), NotKept> {
        self.lock(rt)
            .keep(rt, service, asked.domain, begins_anew, asked.commands)
    }

    fn state<R: Wait>(&self, rt: &R) -> RecordState {
        let record = self.lock(rt);
        if record.is_out() {
            RecordState::Out
        } else if record.has_failed() {
            RecordState::Unrecorded
        } else {
            RecordState::Kept
        }
    }

    fn sizes<R: Wait>(&self, rt: &R) -> RecordSizes {
        let record = self.lock(rt);
        RecordSizes {
            newest: record.bytes(),
            older: record.older_bytes(),
        }
    }

    fn bound<R: Wait>(&self, rt: &R, bytes: u64) {
        self.lock(rt).bound(bytes);
    }

    fn remove_beyond<R: Wait>(&self, rt: &R) -> io::Result<Option<String>> {
        self.lock(rt).remove_beyond()
    }

    fn path<R: Wait>(&self, rt: &R, alloc: Global) -> Result<Option<String>, NoMemory> {
        Ok(Some(self.lock(rt).path(alloc)?))
    }

    fn failure<R: Wait>(&self, rt: &R, alloc: Global) -> LiveFailure {
        failure_of(&self.lock(rt), alloc)
    }
}

/// The record of a domain if nothing is recorded.
#[derive(Clone, Copy)]
pub struct NoRecord;

impl SharedRecord for NoRecord {
    fn keep<R: Wait>(
        &self,
        _rt: &R,
        _service: &Service,
        _asked: AskedCommands,
        _begins_anew: bool,
    ) -> Result<(), NotKept> {
        Ok(())
    }

    fn state<R: Wait>(&self, _rt: &R) -> RecordState {
        RecordState::Kept
    }

    fn sizes<R: Wait>(&self, _rt: &R) -> RecordSizes {
        RecordSizes {
            newest: 0,
            older: 0,
        }
    }

    fn bound<R: Wait>(&self, _rt: &R, _bytes: u64) {}

    fn remove_beyond<R: Wait>(&self, _rt: &R) -> io::Result<Option<String>> {
        Ok(None)
    }

    fn path<R: Wait>(&self, _rt: &R, _alloc: Global) -> Result<Option<String>, NoMemory> {
        Ok(None)
    }

    fn failure<R: Wait>(&self, _rt: &R, _alloc: Global) -> LiveFailure {
        LiveFailure::Memory
    }
}

/// As many of them as the plan has domains.
///
/// # Errors
///
/// `NoMemory` if there is none for the list.
pub fn no_records(alloc: Global, plan: &AcceptedPlan) -> Result<Vec<NoRecord>, NoMemory> {
    let mut records = Vec::new(alloc);
    for _ in 0..plan.domains() {
        records.push(NoRecord)?;
    }
    Ok(records)
}

/// The record of a domain, and where its notices go.
#[derive(Drop)]
pub(crate) struct RecordOutputs<'a, K, N> {
    pub(crate) record: &'a K,
    pub(crate) errors: &'a N,
}

// Tells that the record of a domain can't be written, and why.
fn tell_unwritten<R: Wait, K: SharedRecord, N: Notices>(
    rt: &R,
    alloc: Global,
    service: &Service,
    domain: u8,
    outputs: &RecordOutputs<'_, K, N>,
    error: &io::Error,
) -> Result<(), NoMemory> {
    if let Some(path) = outputs.record.path(rt, alloc)? {
        let names = names_of(alloc, service.plan(), domain)?;
        let line = format!(in alloc;
            "{path}: {error}: lines of {names} are answered record until it can be written\n"
        )?;
        outputs.errors.tell(rt, line.as_str());
    }
    Ok(())
}

// Tells that the record of a domain is written again.
fn tell_written<R: Wait, K: SharedRecord, N: Notices>(
    rt: &R,
    alloc: Global,
    outputs: &RecordOutputs<'_, K, N>,
) -> Result<(), NoMemory> {
    if let Some(path) = outputs.record.path(rt, alloc)? {
        let line = format!(in alloc; "{path}: it is written again, and nothing is missing\n")?;
        outputs.errors.tell(rt, line.as_str());
    }
    Ok(())
}

/// Records what a domain has answered by now, in the next record if its journal began again: at least as many commands as were
/// asked of it. The answer is the state of the record then. A notice says when a record can't be written that was written before,
/// and when it is written again.
///
/// # Errors
///
/// `NoMemory` if that ran out of memory.
pub(crate) fn keep_and_tell<R: Wait, K: SharedRecord, N: Notices>(
    rt: &R,
    alloc: Global,
    service: &Service,
    asked: AskedCommands,
    outputs: &RecordOutputs<'_, K, N>,
    begins_anew: bool,
) -> Result<RecordState, NoMemory>
    ensures kept { IfOk result (λ state. state ≡ RecordState.Kept
        → K.has_kept outputs.now.«record».now service.now.plan asked.domain asked.commands) }
    ensures asked { K.was_asked outputs.now.«record».now service.now.plan asked.domain asked.commands }
    ensures out { IfOk result (λ state. state ≡ RecordState.Out → K.was_out outputs.now.«record».now) }
    ensures lacks { IfOk result (λ state. state ≢ RecordState.Kept → K.has_lacked outputs.now.«record».now) }
{
    let before = outputs.record.state(rt);
    match outputs.record.keep(rt, service, asked, begins_anew) {
        Ok(()) => {
            if before == RecordState::Unrecorded {
                tell_written(rt, alloc, outputs)?;
            }
            Ok(RecordState::Kept)
        }
        Err(NotKept::Failed(error)) => {
            if before != RecordState::Unrecorded {
                tell_unwritten(rt, alloc, service, asked.domain, outputs, &error)?;
            }
            Ok(RecordState::Unrecorded)
        }
        Err(NotKept::Memory) => Err(NoMemory),
        Err(NotKept::Out) => Ok(RecordState::Out),
    }
}

/// Removes older records of a domain, the oldest first, as long as all together take more than they may. The newest stays. A
/// notice names each that was removed, and says how many bytes they may take. If one can't be removed a notice says why, and no more
/// are removed.
///
/// # Errors
///
/// `NoMemory` if a notice ran out of memory.
pub(crate) fn trim_and_tell<R: Wait, K: SharedRecord, N: Notices>(
    rt: &R,
    alloc: Global,
    outputs: &RecordOutputs<'_, K, N>,
    room: u64,
) -> Result<(), NoMemory> {
    let RecordOutputs { record, errors } = outputs;
    for _ in 0..record.sizes(rt).older {
        let line = match record.remove_beyond(rt) {
            Ok(Some(path)) => format!(in alloc;
                "{path}: removed, since the records of its domain take more than {room} bytes\n"
            )?,
            Ok(None) => break,
            Err(error) => {
                let line = format!(in alloc; "an older record can't be removed: {error}\n")?;
                errors.tell(rt, line.as_str());
                break;
            }
        };
        errors.tell(rt, line.as_str());
    }
    Ok(())
}
