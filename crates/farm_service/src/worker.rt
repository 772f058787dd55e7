//! What a worker does.

ghost use Rattle.std.specs.Prelude.{◌≡◌, ◌≤◌, []};
ghost use Rattle.token_queue.specs.Tokens.{HasToken, without};

use crate::service::Service;
use domain_core::{Committed, Refusal, Ticket};
use std::alloc::Global;
use std::sync::Wait;
use token_queue::{Token, WorkerPass};
use turn_schedule::{BurstLength, Idleness};

/// As a number of turns: until the service is stopped.
pub const UNTIL_STOPPED: u64 = u64::MAX;

/// What a worker calls at its turns. The calls come outside of every lock, and each `begins` is followed by one `ended`
/// of the same token.
pub trait Gate {
    /// After the first hold of the domain's lock, in which the token's node was copied or found to have no Step to do,
    /// and before the burst. If the node couldn't be copied, or rests, the turn has no such call.
    fn begins<R: Wait>(&self, rt: &R, token: Token);

    /// After the second hold of the domain's lock, with what became of the node's ticket in it: it was committed, also one of
    /// no Steps, or it was stale, or why its Steps were refused.
    fn ended<R: Wait>(&self, rt: &R, token: Token, committed: &Result<Committed, Refusal>);

    /// A worker found first that nodes and packets of a domain rest since it has no room. The call comes outside of
    /// every lock, and once until the domain is restarted.
    fn rests<R: Wait>(&self, _rt: &R, _domain: u8) {}
}

/// Does nothing at a worker's turns.
pub struct NoGate;

impl Gate for NoGate {
    fn begins<R: Wait>(&self, _rt: &R, _token: Token) {}

    fn ended<R: Wait>(&self, _rt: &R, _token: Token, _committed: &Result<Committed, Refusal>) {}
}

/// Why a worker came back.
#[derive(Clone, Copy)]
pub enum Worked {
    /// The turns are over.
    Turns,
    /// The service was stopped.
    Stopped,
    /// A node could not be copied, or a journal could not grow, and the domains have no rooms.
    NoMemory,
}

// Gives the token of a turn back, once.
fn give_back<R: Wait>(rt: &R, service: &Service, pass: &mut WorkerPass, token: Token)
    requires queue { pass.old.queue ≡ service.now.queue }
    requires held { HasToken pass.old.held token }
    ensures { pass.new ≡ record pass.old { held = without token pass.old.held } }
{
    service.tokens().give_back(rt, pass, token);
}

// One turn; whether there was anything to do. The token goes back in every case.
fn turn<R: Wait, G: Gate>(
    rt: &R,
    alloc: Global,
    service: &Service,
    pass: &mut WorkerPass,
    gate: &G,
    slot: &mut Option<Ticket>,
    length: BurstLength,
) -> Result<bool, Refusal>
    requires { pass.old.queue ≡ service.now.queue }
    ensures { pass.new ≡ pass.old }
{
    match service.tokens().take(rt, pass) {
        None => Ok(false),
        Some(token) => {
            let done = service.turn(rt, alloc, token, gate, slot, length);
            give_back(rt, service, pass, token);
            done
        }
    }
}

// Works for `turns` turns, beside `workers_before` workers that came before.
fn take_turns<R: Wait, G: Gate>(
    rt: &R,
    alloc: Global,
    service: &Service,
    pass: &mut WorkerPass,
    gate: &G,
    quantum: u64,
    turns: u64,
    workers_before: usize,
) -> Worked
    requires { pass.old.queue ≡ service.now.queue }
    ensures { pass.new ≡ pass.old }
{
    let mut slot = None;
    let mut idleness = Idleness::none();
    let may_sleep = turns == UNTIL_STOPPED;
    let length = BurstLength {
        quantum,
        may_grow: may_sleep,
    };
    let mut worked = Worked::Turns;
    for _turn in 0..turns {
        if service.is_stopped() {
            worked = Worked::Stopped;
            break;
        }
        service
            .schedule()
            .make_way(rt, workers_before, &mut idleness, may_sleep);
        match turn(rt, alloc, service, pass, gate, &mut slot, length) {
            Err(Refusal::NoMemory) if !service.room().is_bounded() => {
                worked = Worked::NoMemory;
                break;
            }
            done => idleness.note(done == Ok(true)),
        }
    }
    worked
}

/// Works for `turns` turns. In each a token is taken, its node does up to `quantum` Steps, 1 to 4,096, outside the lock
/// of its domain, the packets of the domain's ports move, and the token goes back. A worker for [`UNTIL_STOPPED`] turns
/// does up to 256 quanta in a turn while nothing moves, but never more than 65,536 Steps. A turn that finds no token is
/// spent all the same. So is a turn of a node that rests, since nothing has changed in its domain since the node had
/// nothing to do. `JournalFull` ends only the turn, and so does `NoMemory` if the domains have rooms. No turn does
/// anything in a domain whose room is used up.
///
/// The pass holds no token before the call and none after it, whatever it answers. Users go first: a thread with
/// nothing to do gives its core away. While somebody settles in a domain, that thread and the workers together do one
/// burst of each node there in each round, and workers for which there is no core nap. A worker for [`UNTIL_STOPPED`]
/// turns that has looked through all tokens in vain sleeps until a domain is changed by others than workers, or more
/// nodes are busy than workers are awake.
pub fn work<R: Wait, G: Gate>(
    rt: &R,
    alloc: Global,
    service: &Service,
    pass: &mut WorkerPass,
    gate: &G,
    quantum: u64,
    turns: u64,
) -> Worked
    requires queue { pass.old.queue ≡ service.now.queue }
    requires none { pass.old.held ≡ [] }
    requires quantum { (1 ≤ quantum) × (quantum ≤ 4096) }
    ensures none { pass.new.held ≡ [] }
    ensures pass { pass.new ≡ pass.old }
{
    let workers_before = service.schedule().sleep_board().begin_work();
    let worked = take_turns(
        rt,
        alloc,
        service,
        pass,
        gate,
        quantum,
        turns,
        workers_before,
    );
    service.schedule().sleep_board().end_work();
    worked
}
