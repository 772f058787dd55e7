//! The switch table, and the operator's seat.
ghost use Rattle.std.specs.Prelude.{◌≡◌, [], length, IfOk};
ghost use Rattle.switch_table.specs.Domains.{domains_of};
ghost use Rattle.switch_table.specs.Rule.{opener_of};
ghost use Rattle.std.specs.Arc.{arc_value};

use crate::NoMemory;
use crate::domain::DomainSeat;
use crate::shared_words::{SharedWords, Surveys, WordsSeat};
use atomic_table::Table;
use crossbar::laws::rows_are_words_of_ports;
use crossbar::{Numbering, Word};
use plan_rules::AcceptedPlan;
use std::alloc::Global;
use std::sync::Arc;

/// The words of all 32 outputs. Each domain's seat stores those of its own, and an operator looks at
/// any.
#[derive(Drop)]
pub struct SwitchTable {
    shared_words: Arc<SharedWords>,
    ghost wide: { (arc_value shared_words).shared.table_id.words ≡ 32 },
}

/// The operator's seat: it knows the newest word that it has seen of each output, and stores none.
#[derive(Drop)]
pub struct OperatorSeat {
    seat: WordsSeat,
    ghost takes_no_slot: { seat.me.1 ≡ [] },
    ghost wide: { length seat.me.0.words ≡ 32 },
}

/// The words of a plan's outputs, all 0, and the seat that holds every domain.
fn open_words(alloc: Global, plan: &AcceptedPlan) -> Result<(Arc<SharedWords>, WordsSeat), NoMemory>
    ensures { IfOk result (λ o. (o.1.table_id ≡ (arc_value o.0).shared.table_id) × (o.1.table_id.words ≡ 32) × (o.1.me ≡ opener_of (domains_of plan.now))) }
{
    // The domains of an accepted plan share no port.
    plan.separate_law();
    let (table, opener): (SharedWords, WordsSeat) = Table::of_words(alloc, &[0; 32], plan)?;
    Ok((Arc::new(alloc, table)?, opener))
}

impl SwitchTable {
    ghost use Rattle.std.specs.Prelude.{◌≡◌, ℕ, ◌<◌, List, [], length, map, replicate, slice_index, slice_set, All, IfOk};
    ghost use Rattle.crossbar.specs.Row.{switch_of};
    ghost use Rattle.crossbar.specs.Switch.{cleared};
    ghost use Rattle.crossbar.specs.Word.{IsAtLeastAsNew};
    ghost use Rattle.switch_table.specs.Domains.{domains_of};
    ghost use Rattle.switch_table.specs.Rule.{IsConfined, word_of};
    ghost use Rattle.switch_table.specs.Seats.{table_of, seat_row, surveyed_table, surveyed_domains, seen_words, clear_row};

    /// A table with all words 0, one seat for each domain of the plan, in its order and with its
    /// numbering, and the seat of the operator, who has seen 0 everywhere. After `NoMemory` nothing
    /// is left of them.
    // Six clauses: four of the seats, and two of the operator's.
    pub fn open(
        alloc: Global,
        plan: &AcceptedPlan,
    ) -> Result<(SwitchTable, Vec<DomainSeat>, OperatorSeat), NoMemory>
        ensures ports { IfOk result (λ o. map (λ s. s.ports) o.1.items ≡ domains_of plan.now) }
        ensures clear { IfOk result (λ o. All (λ s. seat_row s ≡ clear_row s.ports) o.1.items) }
        ensures switch { IfOk result (λ o. All (λ s. switch_of (seat_row s).words ≡ cleared) o.1.items) }
        ensures table { IfOk result (λ o. All (λ s. s.table ≡ table_of o.0) o.1.items) }
        ensures operator { IfOk result (λ o. (surveyed_table o.2 ≡ table_of o.0) × (surveyed_domains o.2 ≡ domains_of plan.now)) }
        ensures seen { IfOk result (λ o. seen_words o.2 ≡ replicate 32 0) }
    {
        // A row with another proper word is a row.
        rows_are_words_of_ports();
        // The domains of an accepted plan share no port.
        plan.separate_law();
        let domains = plan.domains();
        let mut seats = Vec::with_capacity(alloc, usize::from(domains))?;
        let (shared_words, mut opener) = open_words(alloc, plan)?;
        for domain in 0..domains {
            let numbering = Numbering::of(plan.ranges(domain));
            seats.push(DomainSeat::take_first_domain(&shared_words, &mut opener, numbering)?)?;
        }
        Ok((
            SwitchTable { shared_words },
            seats,
            OperatorSeat { seat: opener },
        ))
    }

    /// The word of a physical output, below 32, by one atomic load: at least as new as the one that the
    /// operator saw there last, and confined to the output's domain. It waits for nobody.
    // Six clauses: two of seat and output, three of the word, and what stays.
    pub fn survey(&self, operator: &mut OperatorSeat, output: u8) -> Word
        requires here { surveyed_table operator.old ≡ table_of self.now }
        requires there { output < 32 }
        ensures seen { seen_words operator.new ≡ slice_set (seen_words operator.old) output result.bits }
        ensures newer { IsAtLeastAsNew result (word_of (slice_index (seen_words operator.old) output)) }
        ensures confined { IsConfined (surveyed_domains operator.old) output result.bits }
        ensures unchanged { (surveyed_table operator.new ≡ surveyed_table operator.old) × (surveyed_domains operator.new ≡ surveyed_domains operator.old) }
    {
        let bits = self
            .shared_words
            .shared
            .load::<Surveys>(&mut operator.seat, usize::from(output));
        Word { bits }
    }
}
