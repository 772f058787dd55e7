//! What a row prints of what a service left.

use crate::comparison::is_alike;
use crate::losses::{LOSSES, Loss};
use crate::watch::Watch;
use domain_core::{Entry, Journal, Reply};
use farm_service::{Closed, Token};
use plan_rules::AcceptedPlan;
use std::alloc::{AllocError, Global};
use virtual_switch::ConfigReply;

/// What is printed of what is left, after all was compared with the farm on one thread.
#[derive(Clone, Copy)]
pub enum OutcomeReport {
    /// Nothing.
    Nothing,
    /// How many tokens.
    Tokens,
    /// How many entries the second domain's journal has and what each was answered, the word of its output 5, and which
    /// tokens in which order.
    Second,
    /// Which tokens, in which order.
    Order,
    /// How many Steps each node did, as the journals say.
    Steps,
    /// How many Steps all nodes did.
    AllSteps,
    /// How many domains and tokens, and whether the farm on one thread came to the same.
    Again,
    /// Whether the comparison notices what is lost on purpose.
    Losses,
}

/// What is printed of something: whether it is as it must be.
pub fn verdict(is_right: bool) -> &'static str {
    if is_right {
        "as it must be"
    } else {
        "otherwise"
    }
}

// The tokens, in the order in which they waited.
fn tell_order(closed: &Closed, said: &mut String) -> Result<(), AllocError> {
    for token in closed.tokens.iter() {
        write!(said, " {}.{}", token.domain, token.node)?;
    }
    Ok(())
}

// What each entry of a journal was answered, if it is of the switch.
fn tell_replies(journal: &Journal, said: &mut String) -> Result<(), AllocError> {
    for index in 0..journal.len() {
        match journal.get(index) {
            Some(
                Entry::One {
                    reply: Reply::Config(ConfigReply::Nothing),
                    ..
                },
            ) => said.push_str(" nothing")?,
            Some(
                Entry::One {
                    reply: Reply::Config(ConfigReply::Answer(byte)),
                    ..
                },
            ) => write!(said, " {byte:02x}")?,
            _ => said.push_str(" another")?,
        }
    }
    Ok(())
}

// Of the second domain.
fn tell_second(closed: &Closed, said: &mut String) -> Result<(), AllocError> {
    if let Some(second) = closed.domains.get(1)
        && let Some(word) = second.words.get(5)
    {
        let entries = second.journal.len();
        write!(said, " {entries} entries")?;
        tell_replies(&second.journal, said)?;
        write!(said, ", word {:x}, tokens", word.bits)?;
        tell_order(closed, said)?;
    }
    Ok(())
}

// How many Steps of a node a journal has.
fn steps_of(journal: &Journal, node: u8) -> u64 {
    let mut steps = 0_u64;
    for index in 0..journal.len() {
        if let Some(
            Entry::Run {
                node: stepped,
                count,
                ..
            },
        ) = journal.get(index)
            && stepped == node
        {
            steps = steps.saturating_add(count);
        }
    }
    steps
}

// Of each node.
fn tell_steps(closed: &Closed, said: &mut String) -> Result<(), AllocError> {
    for Token { domain, node } in closed.tokens.iter() {
        if let Some(ended) = closed.domains.get(usize::from(*domain)) {
            let steps = steps_of(&ended.journal, *node);
            write!(said, " {domain}.{node} {steps} Steps")?;
        }
    }
    Ok(())
}

// Of all nodes.
fn tell_all_steps(closed: &Closed, said: &mut String) -> Result<(), AllocError> {
    let mut steps = 0_u64;
    for Token { domain, node } in closed.tokens.iter() {
        if let Some(ended) = closed.domains.get(usize::from(*domain)) {
            steps = steps.saturating_add(steps_of(&ended.journal, *node));
        }
    }
    write!(said, " {steps} Steps")
}

impl Loss {
    // Its name.
    fn name(self) -> &'static str {
        match self {
            Loss::Step => "Step",
            Loss::Byte => "byte",
            Loss::Token => "token",
            Loss::Word => "word",
        }
    }
}

// Of each loss.
fn tell_losses(
    alloc: Global,
    plan: &AcceptedPlan,
    closed: &Closed,
    watch: &Watch,
    said: &mut String,
) -> Result<(), AllocError> {
    for loss in LOSSES {
        let name = loss.name();
        if loss.is_noticed(alloc, plan, closed, watch)? {
            write!(said, " {name} noticed;")?;
        } else {
            write!(said, " {name} not noticed;")?;
        }
    }
    Ok(())
}

/// Tells what is left, and where the farm on one thread comes to something else, or an operator saw a word that is not
/// allowed.
pub fn tell_left(
    alloc: Global,
    plan: &AcceptedPlan,
    closed: &Closed,
    watch: &Watch,
    left: OutcomeReport,
    said: &mut String,
) -> Result<(), AllocError> {
    let alike = is_alike(alloc, plan, closed, watch, 1)?;
    let (count, tokens) = (closed.domains.len(), closed.tokens.len());
    match left {
        OutcomeReport::Nothing => {}
        OutcomeReport::Tokens => write!(said, " {tokens} tokens")?,
        OutcomeReport::Second => tell_second(closed, said)?,
        OutcomeReport::Order => tell_order(closed, said)?,
        OutcomeReport::Steps => tell_steps(closed, said)?,
        OutcomeReport::AllSteps => tell_all_steps(closed, said)?,
        OutcomeReport::Again => {
            write!(
                said,
                " {count} domains, {tokens} tokens, done again alike: {alike}"
            )?
        }
        OutcomeReport::Losses => tell_losses(alloc, plan, closed, watch, said)?,
    }
    if !alike {
        said.push_str(" not done again alike")?;
    }
    if watch.wrong > 0 {
        said.push_str(" not allowed")?;
    }
    Ok(())
}
