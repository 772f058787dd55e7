//! The two registers of the queue, and the link words below the workspaces in it.

ghost use Rattle.std.specs.Prelude.{◌≡◌, ◌≢◌, ◌↔◌, ◌++◌, ◌∷◌, [], List, ℕ, OnOk, OnErr};
ghost use Rattle.node_memory.specs.declared.fault.Fault.TheVariants.{OutsideMemory};

use node_memory::{Fault, Memory, written_words_are_read};

/// The word that stands for no process, MinInt.
///
/// Source: Transputer instruction set handbook, processes.
pub const NOT_PROCESS: u32 = 0x8000_0000;

/// How many bytes below a workspace its link word lies.
///
/// Source: Transputer instruction set handbook, processes.
pub const LINK_BELOW: u32 = 8;

/// The queue of low priority: the first and the last workspace that wait.
///
/// The word 8 below each workspace in it but the last is the next one. Where `front` is
/// `NOT_PROCESS` none waits, and `back` means nothing. The registers may be any words.
///
/// Source: Transputer instruction set handbook, processes; that the high queue is always empty is
/// our choice.
#[derive(Clone, Copy, PartialEq, Eq)]
pub struct Queue {
    /// The workspace that is taken next, or `NOT_PROCESS`.
    pub front: u32,
    /// The workspace that was put last.
    pub back: u32,
}

impl Queue {
    ghost use Rattle.node_memory.specs.Bytes.{word_at};
    ghost use Rattle.node_memory.specs.Effect.{effect_of};
    ghost use Rattle.node_memory.specs.Marks.{not_process};
    ghost use Rattle.process_queue.specs.Queue.{after_put, after_take, link_of};
    ghost use Rattle.process_queue.specs.Waiting.{Stands, IsWorkspace, IsAbsent, first, others};

    /// The queue where none waits: both registers are `NOT_PROCESS`.
    pub fn empty() -> Queue
        ensures { result ≡ record { front = not_process; back = not_process } }
    {
        Queue {
            front: NOT_PROCESS,
            back: NOT_PROCESS,
        }
    }

    /// Puts a workspace at the end.
    ///
    /// `Fault::OutsideMemory` where others wait and the link word of the last lies outside memory;
    /// queue and memory are then unchanged.
    ///
    /// Source: Transputer instruction set handbook, run process.
    #[inline(always)]
    #[tactic(auto, unfolding(crate::specs::Queue::after_put))]
    pub fn put(&mut self, memory: &mut Memory, workspace: u32) -> Result<(), Fault>
        ensures exact { effect_of result self.new memory.new ≡ after_put self.old memory.old workspace }

        // A new workspace goes to the end of the list that waits.
        ensures list { (ws : List ℕ) → Stands memory.old self.old ws → IsWorkspace workspace → IsAbsent workspace ws →
            OnOk result (Stands memory.new self.new (ws ++ workspace ∷ [])) }

        ensures outside { (result ≡ Err OutsideMemory) ↔
            ((self.old.front ≢ not_process) × (word_at memory.old (link_of self.old.back) ≡ Err OutsideMemory)) }
        ensures queue_unchanged { OnErr result (self.new ≡ self.old) }
        ensures memory_unchanged { OnErr result (memory.new ≡ memory.old) }
    {
        // A word that was written is read.
        written_words_are_read();
        if self.front == NOT_PROCESS {
            self.front = workspace;
        } else {
            memory.set_word(self.back.wrapping_sub(LINK_BELOW), workspace)?;
        }
        self.back = workspace;
        Ok(())
    }

    /// Takes the workspace at the front, `None` where none waits.
    ///
    /// `Fault::OutsideMemory` if others wait after it and its link word lies outside memory; the
    /// queue is then unchanged.
    ///
    /// Source: Transputer instruction set handbook, processes.
    #[inline(always)]
    #[tactic(auto, unfolding(crate::specs::Queue::after_take))]
    pub fn take(&mut self, memory: &Memory) -> Result<Option<u32>, Fault>
        ensures exact { effect_of result self.new memory.now ≡ after_take self.old memory.now }

        // It is the first of the list that waits, and the others go on waiting.
        ensures first { (ws : List ℕ) → Stands memory.now self.old ws → result ≡ Ok (first ws) }
        ensures others { (ws : List ℕ) → Stands memory.now self.old ws → Stands memory.now self.new (others ws) }

        ensures outside { (result ≡ Err OutsideMemory) ↔
            ((self.old.front ≢ not_process) × (self.old.front ≢ self.old.back) × (word_at memory.now (link_of self.old.front) ≡ Err OutsideMemory)) }
        ensures unchanged { OnErr result (self.new ≡ self.old) }
    {
        let workspace = self.front;
        if workspace == NOT_PROCESS {
            return Ok(None);
        }
        self.front = if workspace == self.back {
            NOT_PROCESS
        } else {
            memory.word(workspace.wrapping_sub(LINK_BELOW))?
        };
        Ok(Some(workspace))
    }
}
