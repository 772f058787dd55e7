//! A farm on one thread.

use crate::{ANN, ASKED};
use domain_core::{By, Event, Refusal, Reply};
use farm_core::PlainFarm;
use plan_checker::AcceptedPlan;
use std::alloc::Global;

/// The number of a domain, who asks there, and what.
pub type FarmCall = (u8, By, Event);

/// How many rounds a domain gets at most.
const ROUNDS: u32 = 10_000;

/// What the farm does in a round: the packets of the host and of the node move, and the node does a Step.
const ROUND: [Event; 3] = [Event::Move(7), Event::Step(0), Event::Move(0)];

/// What was asked of a farm, with what ann was answered.
#[derive(Drop)]
pub struct Conversation {
    /// All calls, in order.
    pub calls: Vec<FarmCall>,
    /// What ann's own were answered.
    pub replies: Vec<Reply>,
}

// Asks, and lists what was asked.
fn ask(
    alloc: Global,
    farm: &mut PlainFarm,
    asked: &mut Conversation,
    by: By,
    event: Event,
) -> Result<Reply, Refusal> {
    asked.calls.push((ANN, by, event))?;
    farm.apply(alloc, ANN, by, event)
}

// Asks for ann.
fn ask_for_ann(
    alloc: Global,
    farm: &mut PlainFarm,
    asked: &mut Conversation,
    event: Event,
) -> Result<(), Refusal> {
    let reply = ask(alloc, farm, asked, By::User(0), event)?;
    asked.replies.push(reply)?;
    Ok(())
}

// Rounds until nothing is left to do.
fn settle(alloc: Global, farm: &mut PlainFarm, asked: &mut Conversation) -> Result<(), Refusal> {
    for _round in 0..ROUNDS {
        if usize::from(ANN) >= farm.domains() || farm.quiet(ANN) {
            break;
        }
        for event in ROUND {
            ask(alloc, farm, asked, By::Farm, event)?;
        }
    }
    Ok(())
}

/// Joins ann's node with her host, boots the program, lets it run, and reads what came.
///
/// # Errors
///
/// The first refusal.
pub fn ask_on_one_thread(alloc: Global, plan: &AcceptedPlan) -> Result<Conversation, Refusal> {
    let mut farm = PlainFarm::open(alloc, plan)?;
    let mut asked = Conversation {
        calls: Vec::new(alloc),
        replies: Vec::new(alloc),
    };
    for event in ASKED {
        ask_for_ann(alloc, &mut farm, &mut asked, event)?;
    }
    settle(alloc, &mut farm, &mut asked)?;
    ask_for_ann(alloc, &mut farm, &mut asked, Event::Read(0))?;
    Ok(asked)
}
