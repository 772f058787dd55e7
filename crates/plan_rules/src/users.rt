//! The users of a plan: their names and their numbers.
ghost use Rattle.std.specs.Prelude.{◌≡◌, ◌≢◌, ◌<◌, ◌++◌, ℕ, length, map, slice_get, IfOk, IfSome, MatchOption, Some};
ghost use Rattle.plan_rules.specs.Users.{all_names, name_at, name_in};
ghost use Rattle.plan_rules.specs.declared.users.UserNumber.{UserNumber as SpecUserNumber};

use crate::NoMemory;
use crate::accepted::AcceptedPlan;
use std::alloc::Global;

/// A user of a plan.
#[derive(Clone, Copy)]
pub struct UserNumber {
    /// The number of the user's domain in the plan.
    pub domain: u8,
    /// The number of the user in the domain.
    pub user: u8,
}

// Adds the names of a domain's users.
fn add_names<'a>(
    names: &mut Vec<&'a str>,
    plan: &'a AcceptedPlan,
    domain: u8,
) -> Result<(), NoMemory>
    requires { domain < length plan.now }
    ensures { IfOk result (λ _. IfSome (slice_get plan.now domain)
        (λ d. map (λ n. n.now) names.new.items ≡ map (λ n. n.now) names.old.items ++ map (λ u. u.name) d.users)) }
{
    for user in 0..plan.users(domain) {
        names.push(plan.name(domain, user))?;
    }
    Ok(())
}

// The number of the user of this name in a domain.
fn user_in(plan: &AcceptedPlan, domain: u8, name: &[u8]) -> Option<u8>
    requires { domain < length plan.now }
    ensures { IfSome (slice_get plan.now domain)
        (λ d. MatchOption result ((user : ℕ) → name_in d user ≢ Some name.now) (λ user. name_in d user ≡ Some name.now)) }
{
    for user in 0..plan.users(domain) {
        if plan.name(domain, user).as_bytes() == name {
            return Some(user);
        }
    }
    None
}

impl AcceptedPlan {
    /// The names of all users, in the order of the plan.
    ///
    /// # Errors
    ///
    /// `NoMemory`.
    pub fn names(&self, alloc: Global) -> Result<Vec<&str>, NoMemory>
        ensures { IfOk result (λ names. map (λ n. n.now) names.items ≡ all_names self.now) }
    {
        let mut names = Vec::new(alloc);
        for domain in 0..self.domains() {
            add_names(&mut names, self, domain)?;
        }
        Ok(names)
    }

    /// The user of this name.
    pub fn user_named(&self, name: &[u8]) -> Option<UserNumber>
        ensures { MatchOption result ((number : SpecUserNumber) → name_at self.now number ≢ Some name.now)
            (λ number. name_at self.now number ≡ Some name.now) }
    {
        for domain in 0..self.domains() {
            if let Some(user) = user_in(self, domain, name) {
                return Some(UserNumber { domain, user });
            }
        }
        None
    }
}
