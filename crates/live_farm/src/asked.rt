//! How many commands the users of a domain were answered, which its record is to have.
ghost use Rattle.std.specs.Prelude.{◌≡◌};
ghost use Rattle.record_keeping.specs.Counts.{saturated};
ghost use Rattle.live_farm.specs.Asking.{commands_of_sessions, commands_of_pass, commands_asked, commands_listed};

use crate::group::UserGroup;
use farm_service::{Session, UserPass};

/// How many commands the users of a domain were answered since its journal began.
#[derive(Clone, Copy)]
pub struct AskedCommands {
    /// The number of the domain.
    pub domain: u8,
    /// How many commands all its users list together.
    pub commands: u64,
}

// How many commands these sessions list.
fn commands_of_sessions(sessions: &[Session<'_>]) -> u64
    ensures { result ≡ saturated (commands_of_sessions sessions.now) }
{
    let mut commands: u64 = 0;
    for session in sessions {
        commands = commands.saturating_add(session.commands().len() as u64);
    }
    commands
}

// How many commands a pass lists, if it is of this domain.
fn commands_of_pass(domain: u8, pass: &UserPass) -> u64
    ensures { result ≡ commands_of_pass domain pass.now }
{
    if pass.domain() == domain {
        pass.commands().len() as u64
    } else {
        0
    }
}

// How many commands the passes of a domain list.
fn commands_of_passes(domain: u8, passes: &[UserPass]) -> u64
    ensures { result ≡ commands_listed domain passes.now }
{
    let mut commands: u64 = 0;
    for pass in passes {
        commands = commands.saturating_add(commands_of_pass(domain, pass));
    }
    commands
}

impl AskedCommands {
    /// By the sessions of the domain's users.
    pub fn of_group(group: &UserGroup<'_>) -> AskedCommands
        ensures domain { result.domain ≡ group.now.domain }
        ensures commands { result.commands ≡ commands_asked group.now }
    {
        AskedCommands {
            domain: group.domain,
            commands: commands_of_sessions(group.sessions.as_slice()),
        }
    }

    /// By the passes of all users of the farm.
    pub fn of_passes(domain: u8, passes: &[UserPass]) -> AskedCommands
        ensures domain { result.domain ≡ domain }
        ensures commands { result.commands ≡ commands_listed domain passes.now }
    {
        AskedCommands {
            domain,
            commands: commands_of_passes(domain, passes),
        }
    }
}
