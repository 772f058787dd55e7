//! Users: what each does in a session of their own, and what came of it.

use crate::actions::{Action, perform};
use crate::chance::ask_anything;
use crate::draws::Draws;
use crate::sized::Size;
use farm_service::{Service, Session, UserPass};
use std::alloc::{AllocError, Global};
use std::sync::Wait;

/// What users do.
#[derive(Clone, Copy)]
pub enum Doing {
    /// Each does what is listed for the user's place in the plan.
    Listed(&'static [&'static [Action]]),
    /// All the same.
    Same(&'static [Action]),
    /// One thing.
    One(Action),
    /// Each asks for anything this number of times.
    Anything(Size, u64),
}

/// A user between sessions.
#[derive(Drop)]
pub struct TestUser {
    // None during a session.
    pass: Option<UserPass>,
    /// What the user was answered, in words.
    pub said: String,
    // What the user's commands are drawn from.
    draws: Draws,
    /// How many of the commands that were drawn were answered.
    pub answered: u64,
    /// Whether one of them was answered NoMemory twice, or there was no memory for what the user was answered.
    pub out_of_memory: bool,
}

// Acts one after another.
fn act_all<R: Wait>(
    rt: &R,
    alloc: Global,
    session: &mut Session<'_>,
    actions: &[Action],
    said: &mut String,
) -> Result<(), AllocError> {
    for act in actions {
        perform(rt, alloc, session, *act, said)?;
    }
    Ok(())
}

impl TestUser {
    // Does what the user is to do in a session. Returns whether there was memory.
    fn act_in<R: Wait>(
        &mut self,
        rt: &R,
        alloc: Global,
        session: &mut Session<'_>,
        place: usize,
        doing: Doing,
    ) -> bool {
        let said = &mut self.said;
        match doing {
            Doing::Listed(lists) => match lists.get(place) {
                Some(actions) => act_all(rt, alloc, session, actions, said).is_ok(),
                None => true,
            },
            Doing::Same(actions) => act_all(rt, alloc, session, actions, said).is_ok(),
            Doing::One(act) => perform(rt, alloc, session, act, said).is_ok(),
            Doing::Anything(size, count) => {
                match ask_anything(rt, alloc, session, &mut self.draws, size, count) {
                    Ok(answered) => {
                        self.answered = self.answered.saturating_add(answered);
                        true
                    }
                    Err(_) => false,
                }
            }
        }
    }

    /// Does what the user is to do, in a session of their own.
    pub fn act<R: Wait>(
        &mut self,
        rt: &R,
        alloc: Global,
        service: &Service,
        place: usize,
        doing: Doing,
    ) {
        if let Some(pass) = self.pass.take() {
            let mut session = service.session(pass);
            if !self.act_in(rt, alloc, &mut session, place, doing) {
                self.out_of_memory = true;
            }
            self.pass = Some(session.end());
        }
    }
}

/// The users of these passes, with draws that depend on a seed and their places.
pub fn test_users(
    alloc: Global,
    passes: Vec<UserPass>,
    seed: u64,
) -> Result<Vec<TestUser>, AllocError> {
    let mut users = Vec::with_capacity(alloc, passes.len())?;
    for pass in passes {
        let own = seed.wrapping_mul(64).wrapping_add(users.len() as u64);
        users.push(TestUser {
            pass: Some(pass),
            said: String::new(alloc),
            draws: Draws::new(own),
            answered: 0,
            out_of_memory: false,
        })?;
    }
    Ok(users)
}

/// The passes of these users.
pub fn passes_of(alloc: Global, users: Vec<TestUser>) -> Result<Vec<UserPass>, AllocError> {
    let mut passes = Vec::with_capacity(alloc, users.len())?;
    for user in users {
        let TestUser { pass, .. } = user;
        if let Some(pass) = pass {
            passes.push(pass)?;
        }
    }
    Ok(passes)
}
