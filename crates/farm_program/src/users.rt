//! Users at a service, each in a session of their own, and what they are shown.
ghost use Rattle.std.specs.Prelude.{◌≡◌, ◌<◌, length, map, All, IfOk};
ghost use Rattle.farm_service.specs.Passes.{fresh_passes};
ghost use Rattle.plan_rules.specs.Users.{all_names};
ghost use Rattle.farm_program.specs.Users.{AreUsersOf, HasAnswered, commands_at};

use farm_service::{NoMemory, Service, UserPass};
use line_answers::{Quantum, answer_lines};
use script_lines::{Command, ScriptLine};
use std::alloc::Global;
use std::sync::Wait;

/// A user of a script at a service.
#[derive(Drop)]
pub struct User<'a> {
    /// The service.
    pub service: &'a Service,
    /// The user's pass.
    pub pass: UserPass,
    /// The user's name in the plan.
    pub name: &'a str,
    /// The user's place among all users, in the order of the plan, from 0 on.
    pub place: usize,
    /// The lines of the script. Those with the user's place are the user's.
    pub lines: &'a [ScriptLine],
    /// By how many Steps at a time the user settles.
    pub quantum: Quantum,
}

/// What a user leaves whose lines were answered.
#[derive(Drop)]
pub struct UserOutcome {
    /// The user's pass.
    pub pass: UserPass,
    /// The user's output lines.
    pub screen: String,
}

// What a script's lines ask for the user of a place, in order.
fn commands_at(alloc: Global, lines: &[ScriptLine], place: usize) -> Result<Vec<&Command>, NoMemory>
    ensures { IfOk result (λ commands. map (λ c. c.now) commands.items ≡ commands_at lines.now place) }
{
    let mut commands = Vec::new(alloc);
    for line in lines {
        if line.user == place {
            commands.push(&line.command)?;
        }
    }
    Ok(commands)
}

/// The users of a service, in the order of its plan, each with their pass and their lines of a script.
pub fn script_users<'a>(
    alloc: Global,
    service: &'a Service,
    passes: Vec<UserPass>,
    lines: &'a [ScriptLine],
    quantum: Quantum,
) -> Result<Vec<User<'a>>, NoMemory>
    requires passes { passes.items ≡ fresh_passes service.now.plan }
    requires lines { All (λ l. l.user < length (all_names service.now.plan)) lines.now }
    ensures { IfOk result (λ users. AreUsersOf service.now.plan lines.now quantum.steps users.items) }
{
    let names = service.plan().names(alloc)?;
    let mut users = Vec::with_capacity(alloc, passes.len())?;
    for pass in passes {
        let place = users.len();
        users.push(User {
            service,
            pass,
            name: names[place],
            place,
            lines,
            quantum,
        })?;
    }
    Ok(users)
}

impl User<'_> {
    /// Answers the user's lines of the script in one session, in their order.
    ///
    /// # Errors
    ///
    /// `NoMemory` if there was no memory for all that the user did. The user stopped there.
    pub fn run<R: Wait>(self, rt: &R, alloc: Global) -> Result<UserOutcome, NoMemory>
        ensures { IfOk result (HasAnswered self.entry) }
    {
        let User {
            service,
            pass,
            name,
            place,
            lines,
            quantum,
        } = self;
        let commands = commands_at(alloc, lines, place)?;
        let commands = commands.as_slice();
        let mut session = service.session(pass);
        let mut screen = String::new(alloc);
        answer_lines(
            rt,
            alloc,
            &mut session,
            quantum,
            name,
            commands,
            &mut screen,
        )?;
        let pass = session.end();
        Ok(UserOutcome { pass, screen })
    }
}
