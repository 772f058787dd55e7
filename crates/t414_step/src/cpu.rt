//! The registers of a processor.

ghost use Rattle.std.specs.Prelude.{◌≡◌};

use process_queue::Queue;

/// The registers of a processor, and whether there is a current process. All are words of 32 bits, and any of them
/// may have any value, also one that no booted node comes to: a workspace is used with the low bits that it has.
///
/// Source: Transputer instruction set handbook, registers; that processes take turns by the count of bytes, and not
/// by time, is our choice.
#[derive(Clone, Copy, PartialEq, Eq)]
pub struct Cpu {
    /// Iptr, the address of the next instruction byte.
    pub instruction: u32,
    // A, B and C lie apart, so that a push moves them one by one: it is slower to read two together right after writes.
    pub a: u32,
    /// W, the workspace pointer of the current process.
    pub workspace: u32,
    pub b: u32,
    /// O, the operand that prefixes have built.
    pub operand: u32,
    pub c: u32,
    /// How many instruction bytes the process has done since it was taken from the queue. Steps count to 1,024; a
    /// greater count does what 1,024 does.
    pub bytes: u32,
    /// Front and Back of the queue of low priority; that of high priority is always empty.
    pub queue: Queue,
    /// The flag Error.
    pub error: bool,
    /// The flag HaltOnError.
    pub halt_on_error: bool,
    /// Whether there is a current process.
    pub running: bool,
}

impl Cpu {
    ghost use Rattle.t414_step.specs.Registers.{started, push, unary_result, binary_result, drop, drop2, goto, at_workspace, leave};

    /// The registers of a running processor that has done nothing: its code is at an address, its workspace at another,
    /// A, B and C are 0, the queue is empty and both flags are clear.
    pub fn new(instruction: u32, workspace: u32) -> Cpu
        ensures { result ≡ started instruction workspace }
    {
        Cpu {
            instruction,
            workspace,
            a: 0,
            b: 0,
            c: 0,
            operand: 0,
            queue: Queue::empty(),
            bytes: 0,
            error: false,
            halt_on_error: false,
            running: true,
        }
    }

    // Puts a value above A.
    #[inline]
    pub(crate) fn push(&mut self, value: u32)
        ensures state { self.new ≡ push value self.old }
    {
        self.c = self.b;
        self.b = self.a;
        self.a = value;
    }

    // Replaces A and B by one value.
    #[inline]
    pub(crate) fn binary(&mut self, value: u32)
        ensures state { self.new ≡ binary_result value self.old }
    {
        self.a = value;
        self.b = self.c;
    }

    // Gives up A.
    #[inline]
    pub(crate) fn discard(&mut self)
        ensures state { self.new ≡ drop self.old }
    {
        self.a = self.b;
        self.b = self.c;
    }

    // Gives up A and B.
    #[inline]
    pub(crate) fn discard_two(&mut self)
        ensures state { self.new ≡ drop2 self.old }
    {
        self.a = self.c;
    }

    // Moves the workspace to a word address.
    #[inline]
    pub(crate) fn set_workspace(&mut self, address: u32)
        ensures state { self.new ≡ at_workspace address self.old }
    {
        self.workspace = address - address % 4;
    }
}
