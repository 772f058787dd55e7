//! What an instruction byte came to, as far as registers and memory do it.

ghost use Rattle.std.specs.Prelude.{◌≡◌, List, ℕ};
ghost use Rattle.t414_step.specs.Next.{completed};
ghost use Rattle.t414_step.specs.Answers.{finished};
ghost use Rattle.link_channels.specs.declared.link.FourLinks.{FourLinks};
ghost use Rattle.t414_step.specs.declared.cpu.Cpu.{Cpu};

use node_memory::Fault;
use t414_decode::{ChannelOperation, PlainOperation};

// What an instruction byte came to. The loop of bytes goes on only after the first two.
#[derive(Clone, Copy)]
pub(crate) enum Next {
    // It is done.
    Byte,
    // It is done but for the slice, which follows a jump.
    Jumped,
    // It is stl by an operand, to a word that isn't kept yet. The loop of bytes makes no memory longer, since that is a
    // call, over which few registers last.
    StoreLocal(u32),
    // It is stnl so.
    StoreNonLocal(u32),
    // It is a call by an operand.
    Call(u32),
    // It is lend, which goes back once this index is stored.
    Index(u32),
    // It asks for an operation that the loop of bytes doesn't do.
    Plain(PlainOperation),
    // It asks for an operation on a channel.
    Channel(ChannelOperation),
    // The node halts.
    Fault(Fault),
}

impl Next {
    // What a row of the table came to.
    #[inline(always)]
    pub(crate) fn of(done: Result<(), Fault>) -> Next
        ensures { (s : Cpu) (ls : FourLinks) (m : List ℕ) → completed result s ls m ≡ finished done s ls m }
    {
        match done {
            Ok(()) => Next::Byte,
            Err(fault) => Next::Fault(fault),
        }
    }
}
