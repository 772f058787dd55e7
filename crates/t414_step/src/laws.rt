//! Laws of the processor.

ghost use Rattle.t414_step.specs.Laws.{IdleWhereItRests, MoveStopsAtTheEdge, GreatCountIsTheMost};

use link_channels::services_act_on_work;
use node_memory::copies_stop_at_the_edge;

/// A step answers `Idle` exactly where there is no current process, none in the queue, and no link that has work.
pub fn idle_where_it_rests()
    ensures law { IdleWhereItRests }
{
    // Links are served only if one of them has work.
    services_act_on_work();
}

/// A move of more bytes than memory has is a fault, so one instruction moves no more of them than that.
pub fn move_stops_at_the_edge()
    ensures law { MoveStopsAtTheEdge }
{
    // A copy past the edge of memory is a fault.
    copies_stop_at_the_edge();
}

/// A count of bytes above 1,024, to which no step counts, does what 1,024 does.
pub fn great_count_is_the_most()
    ensures law { GreatCountIsTheMost }
{}
