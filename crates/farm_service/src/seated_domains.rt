//! The domains of a plan before a service has them.
ghost use Rattle.std.specs.Prelude.{◌≡◌, [], length, replicate, All, IfOk, vec_len};
ghost use Rattle.switch_table.specs.Domains.{domains_of};
ghost use Rattle.farm_service.specs.Rooms.{reserved_entries};
ghost use Rattle.switch_table.specs.Seats.{table_of, surveyed_table, surveyed_domains, seen_words};

use crate::NoMemory;
use crate::opening::open_domains;
use crate::room::Room;
use crate::service::SeatedDomain;
use plan_rules::AcceptedPlan;
use std::alloc::Global;
use switch_table::{OperatorSeat, SwitchTable};

/// The domains of a plan as they are opened, each over its seat at one switch table, before they are put under locks.
#[derive(Drop)]
pub(crate) struct SeatedDomains {
    pub(crate) plan: AcceptedPlan,
    /// The domains, in the order of the plan.
    pub(crate) domains: Vec<SeatedDomain>,
    pub(crate) table: SwitchTable,
    pub(crate) operator: OperatorSeat,
    /// How much memory each domain may take.
    pub(crate) room: Room,
    ghost count: { vec_len domains ≡ length plan },
    ghost its_table: { surveyed_table operator ≡ table_of table },
    ghost its_domains: { surveyed_domains operator ≡ domains_of plan },
    ghost nothing_seen: { seen_words operator ≡ replicate 32 0 },
}

impl SeatedDomains {
    /// The domains of a plan, which may take no more memory than this for their journals and for the lists of their users. It is
    /// reserved, and not touched before it is needed.
    pub(crate) fn open(
        alloc: Global,
        plan: AcceptedPlan,
        room: Room,
    ) -> Result<SeatedDomains, NoMemory>
        ensures plan { IfOk result (λ opened. opened.plan ≡ plan) }
        ensures journals { IfOk result (λ opened. All (λ d. d.journal ≡ []) opened.domains.items) }
        ensures reserved { IfOk result (λ opened. All (λ d. d.reserved ≡ reserved_entries room) opened.domains.items) }
        ensures room { IfOk result (λ opened. opened.room ≡ room) }
    {
        let (table, seats, operator) = SwitchTable::open(alloc, &plan)?;
        let domains = open_domains(alloc, &plan, seats, room.entries())?;
        Ok(SeatedDomains {
            plan,
            domains,
            table,
            operator,
            room,
        })
    }
}
