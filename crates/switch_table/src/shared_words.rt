//! The table under its rule.
use crate::view::View;
use atomic_table::{Play, Seat, Split, Table, TableRule};
use plan_rules::AcceptedPlan;
use std::alloc::Global;

/// The shared table rule.
pub struct SwitchRule;

impl TableRule<(), View, AcceptedPlan> for SwitchRule {
    ghost use Rattle.switch_table.specs.Rule.{IsRuled, opening_view};
    ghost use Rattle.switch_table.specs.Domains.{domains_of};

    ghost holds = { λ plan. IsRuled (domains_of plan) };

    ghost first = { λ plan. opening_view (domains_of plan) (domains_of plan) };
}

/// A domain's seat loads its own output.
pub struct LoadsOwn;

impl Play<(), View> for LoadsOwn {
    ghost use Rattle.switch_table.specs.Rule.{Read};

    ghost then = { Read };
}

/// A domain's seat stores its own output.
pub struct StoresOwn;

impl Play<(), View> for StoresOwn {
    ghost use Rattle.switch_table.specs.Rule.{Written};

    ghost then = { Written };
}

/// The operator's seat loads an output.
pub struct Surveys;

impl Play<(), View> for Surveys {
    ghost use Rattle.switch_table.specs.Rule.{Surveyed};

    ghost then = { Surveyed };
}

/// Cuts off the first of the domains that a seat holds.
pub struct TakesFirst;

impl Split<View> for TakesFirst {
    ghost use Rattle.std.specs.Prelude.{take, drop};

    ghost left = { λ v. record v { held = drop 1 v.held } };

    ghost right = { λ v. record v { held = take 1 v.held } };
}

/// The shared words.
pub type SharedWords = Table<(), View, AcceptedPlan, SwitchRule, Global>;

/// A seat at them.
pub type WordsSeat = Seat<(), View>;
