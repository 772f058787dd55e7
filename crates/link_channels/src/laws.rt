//! Laws of messages and services.

ghost use Rattle.link_channels.specs.Laws.{MessageStopsAtTheEdge, ServiceActsOnWork, ServiceLeavesTheRest};

use node_memory::copies_stop_at_the_edge;

/// A message of more bytes than memory has is a fault, so no message moves more of them than that.
pub fn messages_stop_at_the_edge()
    ensures edge { MessageStopsAtTheEdge }
{
    // A copy past the edge of memory is a fault.
    copies_stop_at_the_edge();
}

/// A service of the four links does something, or meets a fault, exactly where one of them has work, and changes
/// nothing where none has.
pub fn services_act_on_work()
    ensures does_something { ServiceActsOnWork }
    ensures rest { ServiceLeavesTheRest }
{}
