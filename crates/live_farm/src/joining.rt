//! Who the users of a domain are.
ghost use Rattle.std.specs.Prelude.{◌≡◌, ◌<◌, ◌≤◌, ◌++◌, ◌∷◌, [], false, length, slice_get, IfSome, OnOk};
ghost use Rattle.live_farm.specs.Groups.{IsNamedSo};

use crate::failure::LiveFailure;
use crate::farm_users::{name_of, number_of};
use crate::group::UserGroup;
use farm_service::{Service, UserPass};
use line_answers::Quantum;
use std::alloc::Global;

impl<'a> UserGroup<'a> {
    /// The group of a domain of the plan, with nobody in it yet.
    pub fn new(alloc: Global, service: &'a Service, domain: u8, quantum: Quantum) -> UserGroup<'a>
        requires { domain < length service.now.plan }
        ensures sessions { result.sessions.items ≡ [] }
        ensures domain { result.domain ≡ domain }
    {
        UserGroup {
            service,
            domain,
            quantum,
            names: Vec::new(alloc),
            sessions: Vec::new(alloc),
        }
    }

    /// Adds the next user of the domain, by the user's pass.
    ///
    /// # Errors
    ///
    /// `Histories` if the pass is that of another user, or if the plan has no such user; `Memory`. Nobody is added then.
    pub fn add(&mut self, pass: UserPass) -> Result<(), LiveFailure>
        ensures { OnOk result (self.new.sessions.items
            ≡ self.old.sessions.items ++ record { plan = self.old.service.now.plan; pass = pass } ∷ []) }
    {
        let number = number_of(&pass);
        if number.domain != self.domain || usize::from(number.user) != self.users() {
            return Err(LiveFailure::Histories);
        }
        let Some(name) = name_of(self.service.plan(), number) else {
            return Err(LiveFailure::Histories);
        };
        self.names.reserve(1)?;
        self.sessions.reserve(1)?;
        self.names.push_reserved(name);
        self.sessions.push_reserved(self.service.session(pass));
        Ok(())
    }

    /// How many users there are.
    pub fn users(&self) -> usize
        ensures { result ≡ length self.now.sessions.items }
    {
        self.sessions.len()
    }

    /// The name of a user.
    pub fn name(&self, user: usize) -> &'a str
        requires { user < length self.now.sessions.items }
        ensures { IsNamedSo self.now user result.now }
    {
        self.names[user]
    }

    /// Whether the domain has a node of this number.
    pub fn has_node(&self, node: u8) -> bool
        ensures { result ≡ false → IfSome (slice_get self.now.service.now.plan self.now.domain) (λ d. length d.nodes ≤ node) }
    {
        let plan = self.service.plan();
        self.domain < plan.domains() && node < plan.nodes(self.domain)
    }
}
