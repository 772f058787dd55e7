//! What is done with a service, stage by stage.

use crate::actions::Action;
use crate::farm::{Ground, OpenedFarm, close, open};
use crate::gates::{Hold, TurnsSeen, burst};
use crate::meeting::{Meeting, Party, run_meeting, work_here};
use crate::telling::verdict;
use crate::users::{Doing, TestUser, passes_of, test_users};
use crate::watch::Watch;
use domain_core::Committed;
use farm_service::{Closed, Worked};
use std::alloc::{AllocError, Global};
use std::sync::Wait;
use std::thread::Threads;

/// A stage of a trial.
#[derive(Clone, Copy)]
pub enum Stage {
    /// Users, by their places in the plan, act one after another, and what they are answered follows.
    Alone(&'static [(usize, Action)]),
    /// Each user does what is listed for the user's place in the plan, all at the same time.
    AtOnce(&'static [&'static [Action]]),
    /// All workers work for this number of turns.
    Workers(u64),
    /// The same for ten turns, while node 0's burst is held until one of node 1 was committed.
    Held,
    /// Each user does this, and workers work beside them until the last has ended. The service is stopped then.
    Meet(Doing, Hold),
    /// What a user was answered since the last such stage follows, under a name.
    Tell(usize, &'static str),
    /// How many users were answered this follows.
    Count(&'static str),
    /// Whether each user was answered exactly the text for the user's place in the plan, this number of times, follows.
    Expect(&'static [(&'static str, usize)]),
    /// The newest word that the operator saw of a physical output follows.
    Word(u8),
    /// This follows.
    Say(&'static str),
    /// The service is stopped.
    Stop,
    /// One worker works for this number of turns; why it came back follows.
    Work(u64),
    /// Somebody does a burst of a node of a domain; what became of it follows.
    Burst(u8, u8),
    /// Whether a burst of node 1 was committed in the last meeting, while node 0's burst was held, follows.
    Committed,
    /// How many bursts began in the last meeting follows.
    Begun,
}

/// A service's trial.
#[derive(Clone, Copy)]
pub struct Trial<'a> {
    pub ground: Ground,
    /// How many workers there are, 1 to 8.
    pub workers: u8,
    pub stages: &'a [Stage],
    /// What the users' draws depend on.
    pub seed: u64,
}

/// What is left of a trial.
#[derive(Drop)]
pub struct StageOutcome {
    /// The text that the stages wrote.
    pub said: String,
    /// How many commands by chance were answered.
    pub answered: u64,
    pub watch: Watch,
    pub closed: Closed,
}

// Why a worker came back.
fn name_of(worked: Worked) -> &'static str {
    match worked {
        Worked::Turns => " turns",
        Worked::Stopped => " stopped",
        Worked::NoMemory => " no memory",
    }
}

// How many users were answered this.
fn count_answered(users: &[TestUser], text: &str) -> usize {
    let mut count = 0_usize;
    for user in users {
        if user.said.as_str() == text {
            count = count.saturating_add(1);
        }
    }
    count
}

// Whether a text is another one, repeated `times` times.
fn is_repeated(said: &str, text: &str, times: usize) -> bool {
    let mut rest = said;
    for _time in 0..times {
        match rest.strip_prefix(text) {
            Some(after) => rest = after,
            None => return false,
        }
    }
    rest.is_empty()
}

// Whether each user was answered the expected text as often as expected, and nothing else.
fn are_told(users: &[TestUser], expected: &[(&str, usize)]) -> bool {
    for (user, (text, times)) in users.iter().zip(expected.iter()) {
        if !is_repeated(user.said.as_str(), *text, *times) {
            return false;
        }
    }
    users.len() == expected.len()
}

// Users act one after another.
fn act_alone<R: Wait>(
    rt: &R,
    alloc: Global,
    party: &mut Party,
    actions: &[(usize, Action)],
    said: &mut String,
) -> Result<(), AllocError> {
    let farm = &party.farm;
    let service = &farm.service;
    for (place, act) in actions {
        if let Some(user) = party.users.get_mut(*place) {
            user.act(rt, alloc, service, *place, Doing::One(*act));
            said.push_str(user.said.as_str())?;
            user.said.clear();
        }
    }
    Ok(())
}

// Writes what a user was answered.
fn tell_user(
    users: &mut [TestUser],
    place: usize,
    name: &str,
    said: &mut String,
) -> Result<(), AllocError> {
    if let Some(user) = users.get_mut(place) {
        let told = user.said.as_str();
        write!(said, " {name}{told};")?;
        user.said.clear();
    }
    Ok(())
}

// Tells what became of a burst of a node.
fn tell_burst<R: Wait>(
    rt: &R,
    alloc: Global,
    party: &Party,
    domain: u8,
    node: u8,
    said: &mut String,
) -> Result<(), AllocError> {
    match burst(rt, alloc, &party.farm.service, domain, node) {
        Ok(Committed::Done) => said.push_str(" done"),
        Ok(Committed::Stale) => said.push_str(" stale"),
        Err(refusal) => write!(said, " {refusal}"),
    }
}

// Tells whether a burst of node 1 was committed.
fn tell_seen(seen: TurnsSeen, said: &mut String) -> Result<(), AllocError> {
    let TurnsSeen {
        committed,
        failed,
        ..
    } = seen;
    write!(said, " committed {committed}, failed {failed};")
}

// A stage in which nobody meets.
fn tell<R: Wait>(
    rt: &R,
    alloc: Global,
    party: &mut Party,
    stage: Stage,
    said: &mut String,
) -> Result<(), AllocError> {
    match stage {
        Stage::Alone(actions) => act_alone(rt, alloc, party, actions, said),
        Stage::Tell(place, name) => tell_user(party.users.as_mut_slice(), place, name, said),
        Stage::Count(text) => {
            let count = count_answered(party.users.as_slice(), text);
            write!(said, " {count}")
        }
        Stage::Expect(expected) => {
            let told = verdict(are_told(party.users.as_slice(), expected));
            write!(said, " {told}")
        }
        Stage::Word(output) => match party.watch.words.get(usize::from(output)) {
            Some(word) => write!(said, " {:x}", word.bits),
            None => Ok(()),
        },
        Stage::Say(text) => said.push_str(text),
        Stage::Stop => {
            party.farm.service.stop();
            Ok(())
        }
        Stage::Burst(domain, node) => tell_burst(rt, alloc, party, domain, node, said),
        Stage::Committed => tell_seen(party.seen, said),
        Stage::Begun => write!(said, " {} begun;", party.seen.begun),
        _ => Ok(()),
    }
}

impl Stage {
    // How all meet in it.
    fn meeting(self) -> Option<Meeting> {
        match self {
            Stage::AtOnce(lists) => Some(Meeting::Users(Doing::Listed(lists))),
            Stage::Workers(turns) => Some(Meeting::Workers(turns, Hold::Nothing)),
            Stage::Held => Some(Meeting::Workers(10, Hold::First)),
            Stage::Meet(doing, hold) => Some(Meeting::Both(doing, hold)),
            _ => None,
        }
    }
}

// A stage.
fn perform<R: Threads + Wait + Sync>(
    rt: &R,
    alloc: Global,
    mut party: Party,
    stage: Stage,
    said: &mut String,
) -> Party {
    if let Some(meeting) = stage.meeting() {
        return run_meeting(rt, alloc, party, meeting);
    }
    if let Stage::Work(turns) = stage {
        let (mut party, worked) = work_here(rt, alloc, party, turns);
        party.out_of_memory |= said.push_str(name_of(worked)).is_err();
        return party;
    }
    party.out_of_memory |= tell(rt, alloc, &mut party, stage, said).is_err();
    party
}

// How many commands by chance were answered.
fn answered_by(users: &[TestUser]) -> u64 {
    let mut answered = 0_u64;
    for user in users {
        answered = answered.saturating_add(user.answered);
    }
    answered
}

// Whether memory ran out.
fn was_out_of_memory(party: &Party) -> bool {
    let mut wants = party.out_of_memory;
    for user in party.users.iter() {
        wants |= user.out_of_memory;
    }
    wants
}

// What is left when the users have given up their passes and the service is closed.
fn close_all<R: Wait>(
    rt: &R,
    alloc: Global,
    farm: OpenedFarm,
    users: Vec<TestUser>,
) -> Result<Closed, AllocError> {
    let passes = passes_of(alloc, users)?;
    close(rt, alloc, farm, passes)
}

// Closes the service.
fn end<R: Wait>(
    rt: &R,
    alloc: Global,
    party: Party,
    said: String,
) -> Result<StageOutcome, AllocError> {
    let Party {
        farm,
        users,
        watch,
        seen: _,
        out_of_memory: _,
    } = party;
    let answered = answered_by(users.as_slice());
    Ok(StageOutcome {
        closed: close_all(rt, alloc, farm, users)?,
        said,
        answered,
        watch,
    })
}

// All who go through a trial.
fn party_of<R: Wait>(rt: &R, alloc: Global, trial: &Trial<'_>) -> Result<Party, AllocError> {
    let Some((farm, passes, watch)) = open(rt, alloc, trial.ground, trial.workers) else {
        return Err(AllocError);
    };
    Ok(Party {
        farm,
        users: test_users(alloc, passes, trial.seed)?,
        watch,
        seen: TurnsSeen::NOTHING,
        out_of_memory: false,
    })
}

/// Opens a service, goes through the stages, lets the operator survey what they left, and closes it.
///
/// # Errors
///
/// `AllocError` if memory runs out.
pub fn run<R: Threads + Wait + Sync>(
    rt: &R,
    alloc: Global,
    trial: Trial<'_>,
) -> Result<StageOutcome, AllocError> {
    let mut party = party_of(rt, alloc, &trial)?;
    let mut said = String::new(alloc);
    for stage in trial.stages {
        party = perform(rt, alloc, party, *stage, &mut said);
    }
    // The operator surveys once more.
    party = perform(rt, alloc, party, Stage::AtOnce(&[]), &mut said);
    if was_out_of_memory(&party) {
        return Err(AllocError);
    }
    end(rt, alloc, party, said)
}
