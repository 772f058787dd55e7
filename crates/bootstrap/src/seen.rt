//! What is seen of a node.

ghost use Rattle.std.specs.Prelude.{◌≡◌};

use crate::node::Node;
use crate::state::NodeState;
use node_memory::Fault;
use process_queue::NOT_PROCESS;

/// What a node is seen to do.
#[derive(Clone, Copy, PartialEq, Eq)]
pub enum Activity {
    /// It takes bytes, or answers a peek, or waits for a control byte.
    Booting,
    /// There is a current process, or one that waits for the processor.
    Running,
    /// It has begun to run, and no process can go on until a link is served.
    Idle,
    /// It met a fault, and serves nothing until it is reset.
    Halted(Fault),
}

/// What is seen of a node.
#[derive(Clone, Copy, PartialEq, Eq)]
pub struct Seen {
    /// What it does.
    pub state: Activity,
    /// How many bytes each of links 0 to 3 dropped since the last reset, as its buffer was full.
    pub overruns: [u32; 4],
}

impl Node {
    ghost use Rattle.bootstrap.specs.Seen.{seen};

    /// What is seen of the node. Nothing changes.
    pub fn look(&self) -> Seen
        ensures answer { result ≡ seen self.now }
    {
        let state = match &self.state {
            NodeState::WantsControl | NodeState::Takes { .. } | NodeState::Answers { .. } =>
                Activity::Booting,
            NodeState::Runs(cpu) if cpu.running || cpu.queue.front != NOT_PROCESS =>
                Activity::Running,
            NodeState::Runs(_) => Activity::Idle,
            NodeState::Halted(fault) => Activity::Halted(*fault),
        };
        let links = self.links.four();
        Seen {
            state,
            overruns: [
                links.zero.end.input.overruns,
                links.one.end.input.overruns,
                links.two.end.input.overruns,
                links.three.end.input.overruns,
            ],
        }
    }
}
