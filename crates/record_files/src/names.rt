//! The names of a domain's users.
ghost use Rattle.std.specs.Prelude.{◌<◌, length, IfSome};

use domain_core::NoMemory;
use plan_checker::AcceptedPlan;
use std::alloc::Global;

/// The name of a domain's first user, after whom its records are called. Each domain of a plan has one.
pub(crate) fn first_name(plan: &AcceptedPlan, domain: u8) -> Option<&str>
    ensures { IfSome result (λ _. domain < length plan.now) }
{
    if domain < plan.domains() && plan.users(domain) > 0 {
        Some(plan.name(domain, 0))
    } else {
        None
    }
}

/// The names of a domain's users, one after another.
///
/// # Errors
///
/// `NoMemory` if there is none for the text.
pub fn names_of(alloc: Global, plan: &AcceptedPlan, domain: u8) -> Result<String, NoMemory> {
    let mut names = String::new(alloc);
    if domain < plan.domains() {
        for user in 0..plan.users(domain) {
            if user > 0 {
                names.push_str(", ")?;
            }
            names.push_str(plan.name(domain, user))?;
        }
    }
    Ok(names)
}
