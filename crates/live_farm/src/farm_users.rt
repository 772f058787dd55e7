//! All users of a farm, by the domains that they share.

ghost use Rattle.std.specs.Prelude.{◌≡◌, ◌<◌, ◌++◌, ◌∷◌, [], length, map, IfOk, IfSome, OnOk, option_map, Some, true};
ghost use Rattle.plan_rules.specs.Users.{name_at};
ghost use Rattle.live_farm.specs.FarmUsers.{mailed};
ghost use Rattle.live_farm.specs.Names.{user_number_of};

use crate::failure::LiveFailure;
use crate::group::UserGroup;
use crate::mailbox::Mailbox;
use crate::queued::{QueuedLine, QueuedRequest};
use crate::station::{DomainBounds, Station};
use domain_core::NoMemory;
use farm_service::{Committed, Gate, Refusal, Service, Token, UserPass};
use line_answers::Quantum;
use plan_checker::{AcceptedPlan, UserNumber};
use std::alloc::Global;
use std::sync::Wait;

/// All users, in the order of the plan, and a station for each domain.
pub struct FarmUsers<'a> {
    /// The farm at which they are.
    pub service: &'a Service,
    /// Their names.
    pub names: Vec<&'a str>,
    /// Their numbers.
    pub numbers: Vec<UserNumber>,
    /// The domains.
    pub stations: Vec<Station<'a>>,
}

// Dropped by hand, since a derived `Drop` makes callers prove the drop of each field.
impl Drop for FarmUsers<'_> {
    fn drop(self) {
        let FarmUsers {
            service: _,
            names: _,
            numbers: _,
            stations: _,
        } = self;
    }
}

/// Whose a pass is.
pub(crate) fn number_of(pass: &UserPass) -> UserNumber
    ensures { result ≡ user_number_of pass.now }
{
    UserNumber {
        domain: pass.domain(),
        user: pass.user(),
    }
}

/// The name of a user of a plan.
pub(crate) fn name_of<'a>(plan: &'a AcceptedPlan, number: UserNumber) -> Option<&'a str>
    ensures domain { IfSome result (λ _. number.domain < length plan.now) }
    ensures name { IfSome result (λ name. name_at plan.now number ≡ Some name.now) }
{
    if number.domain < plan.domains() && number.user < plan.users(number.domain) {
        Some(plan.name(number.domain, number.user))
    } else {
        None
    }
}

// A group for each domain, with nobody in it yet.
fn groups_of<'a>(
    alloc: Global,
    service: &'a Service,
    quantum: Quantum,
) -> Result<Vec<UserGroup<'a>>, NoMemory> {
    let mut groups = Vec::new(alloc);
    for domain in 0..service.plan().domains() {
        groups.push(UserGroup::new(alloc, service, domain, quantum))?;
    }
    Ok(groups)
}

// Adds a user to the users and to the group of the user's domain. It is an error if the plan has no such user, or if another one
// of the domain is next.
fn join<'a>(
    service: &'a Service,
    groups: &mut Vec<UserGroup<'a>>,
    farm_users: &mut FarmUsers<'a>,
    pass: UserPass,
) -> Result<(), LiveFailure>
    ensures numbers { OnOk result (farm_users.new.numbers.items ≡ farm_users.old.numbers.items ++ user_number_of pass ∷ []) }
    ensures names { OnOk result (map (λ n. Some n.now) farm_users.new.names.items
        ≡ map (λ n. Some n.now) farm_users.old.names.items ++ name_at service.now.plan (user_number_of pass) ∷ []) }
    ensures stations { farm_users.new.stations ≡ farm_users.old.stations }
{
    let number = number_of(&pass);
    let Some(name) = name_of(service.plan(), number) else {
        return Err(LiveFailure::Histories);
    };
    let Some(group) = groups.get_mut(usize::from(number.domain)) else {
        return Err(LiveFailure::Histories);
    };
    farm_users.names.push(name)?;
    farm_users.numbers.push(number)?;
    group.add(pass)
}

// Gives each group a station.
fn add_stations<'a>(
    alloc: Global,
    groups: Vec<UserGroup<'a>>,
    farm_users: &mut FarmUsers<'a>,
    bounds: DomainBounds,
) -> Result<(), NoMemory>
    ensures { OnOk result ((farm_users.new.numbers ≡ farm_users.old.numbers) × (farm_users.new.names ≡ farm_users.old.names)) }
{
    for group in groups {
        add_station(alloc, group, farm_users, bounds)?;
    }
    Ok(())
}

// Gives a group a station.
fn add_station<'a>(
    alloc: Global,
    group: UserGroup<'a>,
    farm_users: &mut FarmUsers<'a>,
    bounds: DomainBounds,
) -> Result<(), NoMemory>
    ensures { (farm_users.new.numbers ≡ farm_users.old.numbers) × (farm_users.new.names ≡ farm_users.old.names) }
{
    let station = Station::new(alloc, group, bounds)?;
    farm_users.stations.push(station)?;
    Ok(())
}

// Adds all users to the users and to the groups of their domains.
fn join_all<'a>(
    service: &'a Service,
    groups: &mut Vec<UserGroup<'a>>,
    farm_users: &mut FarmUsers<'a>,
    users: Vec<UserPass>,
) -> Result<(), LiveFailure>
    ensures numbers { OnOk result (farm_users.new.numbers.items ≡ farm_users.old.numbers.items ++ map user_number_of users.items) }
    ensures names { OnOk result (map (λ n. Some n.now) farm_users.new.names.items
        ≡ map (λ n. Some n.now) farm_users.old.names.items ++ map (λ p. name_at service.now.plan (user_number_of p)) users.items) }
    ensures stations { OnOk result (farm_users.new.stations ≡ farm_users.old.stations) }
{
    for pass in users {
        join(service, groups, farm_users, pass)?;
    }
    Ok(())
}

// Whether these are the passes of the users of these numbers, in this order.
fn are_of(numbers: &[UserNumber], passes: &[UserPass]) -> bool
    ensures { result ≡ true → map user_number_of passes.now ≡ numbers.now }
{
    if numbers.len() != passes.len() {
        return false;
    }
    for place in 0..numbers.len() {
        let whose = numbers[place];
        let pass = &passes[place];
        if pass.domain() != whose.domain || pass.user() != whose.user {
            return false;
        }
    }
    true
}

/// Wakes the thread of a domain that begins to rest.
#[derive(Drop)]
pub(crate) struct RestGate<'a, 'b> {
    pub(crate) farm_users: &'b FarmUsers<'a>,
}

impl Gate for RestGate<'_, '_> {
    fn begins<R: Wait>(&self, _rt: &R, _token: Token) {}

    fn ended<R: Wait>(&self, _rt: &R, _token: Token, _committed: &Result<Committed, Refusal>) {}

    fn rests<R: Wait>(&self, rt: &R, domain: u8) {
        if let Some(station) = self.farm_users.stations.get(usize::from(domain)) {
            station.mailbox.wake(rt);
        }
    }
}

impl<'a> FarmUsers<'a> {
    /// The users of a service, by the passes of its opening, in their order. Each domain has these bounds.
    ///
    /// # Errors
    ///
    /// `Histories` if a pass is of no user of the plan; `Memory`.
    pub fn new(
        alloc: Global,
        service: &'a Service,
        users: Vec<UserPass>,
        quantum: Quantum,
        bounds: DomainBounds,
    ) -> Result<FarmUsers<'a>, LiveFailure>
        ensures numbers { IfOk result (λ farm_users. farm_users.numbers.items ≡ map user_number_of users.items) }
        ensures names { IfOk result (λ farm_users. map (λ n. Some n.now) farm_users.names.items
            ≡ map (λ p. name_at service.now.plan (user_number_of p)) users.items) }
    {
        let mut groups = groups_of(alloc, service, quantum)?;
        let mut farm_users = FarmUsers {
            service,
            names: Vec::new(alloc),
            numbers: Vec::new(alloc),
            stations: Vec::new(alloc),
        };
        join_all(service, &mut groups, &mut farm_users, users)?;
        add_stations(alloc, groups, &mut farm_users, bounds)?;
        Ok(farm_users)
    }

    // Into whose mailbox a request of the line of this number goes, and as what queued line, by the place of the user's name.
    pub(crate) fn queued_for(
        &self,
        user: usize,
        number: u64,
        request: QueuedRequest,
    ) -> Option<(&Mailbox, QueuedLine)>
        ensures { option_map (λ sent. (sent.0.now, sent.1)) result ≡ mailed self.now user number request }
    {
        let whose = self.numbers.get(user)?;
        let station = self.stations.get(usize::from(whose.domain))?;
        let queued = QueuedLine {
            user: whose.user,
            number,
            request,
        };
        Some((&station.mailbox, queued))
    }

    /// Whether the thread of a domain ran out of memory.
    pub fn is_out_of_memory(&self) -> bool {
        for station in &self.stations {
            if station.is_out_of_memory() {
                return true;
            }
        }
        false
    }

    /// Ends all sessions, and gives their passes back, in the order of the users, in the memory of an empty list.
    ///
    /// # Errors
    ///
    /// `Histories` if they aren't the passes of these users, which no run comes to; `Memory` if the list has no room for them.
    pub fn end(self, room: Vec<UserPass>) -> Result<Vec<UserPass>, LiveFailure>
        ensures { IfOk result (λ passes. map user_number_of passes.items ≡ self.entry.numbers.items) }
    {
        let FarmUsers {
            service: _,
            names: _,
            numbers,
            stations,
        } = self;
        let mut passes = room;
        for station in stations {
            station.into_group().end(&mut passes)?;
        }
        if are_of(numbers.as_slice(), passes.as_slice()) {
            Ok(passes)
        } else {
            Err(LiveFailure::Histories)
        }
    }
}
