//! Processes, the queue and alternatives.

ghost use Rattle.std.specs.Prelude.{◌≡◌, List, ℕ};

use crate::cpu::Cpu;
use link_channels::{ENABLING, NONE_SELECTED, READY, WAITING};
use node_memory::{Fault, Memory};
use process_queue::NOT_PROCESS;

#[tactic(auto, unfolding(crate::specs::Rows::row))]
impl Cpu {
    ghost use Rattle.t414_decode.specs.declared.instruction.PlainOperation.TheVariants as op;
    ghost use Rattle.node_memory.specs.Effect.{Gave};
    ghost use Rattle.t414_step.specs.Answers.{finished};
    ghost use Rattle.link_channels.specs.declared.link.FourLinks.{FourLinks};
    ghost use Rattle.t414_step.specs.Rows.{row, wait, schedule};

    // Saves the place of the process, and leaves.
    #[inline]
    pub(crate) fn wait(&mut self, memory: &mut Memory) -> Result<(), Fault>
        ensures { (ls : FourLinks) → finished result self.new ls memory.new ≡ wait self.old ls memory.old }
    {
        self.save(memory)?;
        self.running = false;
        Ok(())
    }

    // Puts the process of a descriptor in the queue.
    #[inline]
    pub(crate) fn schedule(&mut self, memory: &mut Memory, descriptor: u32) -> Result<(), Fault>
        ensures { (ls : FourLinks) → finished result self.new ls memory.new ≡ schedule descriptor self.old ls memory.old }
    {
        if descriptor % 2 == 0 {
            return Err(Fault::HighPriority);
        }
        self.queue.put(memory, descriptor - descriptor % 4)
    }

    // startp
    #[inline]
    pub(crate) fn start_process(&mut self, memory: &mut Memory) -> Result<(), Fault>
        ensures { (ls : FourLinks) → finished result self.new ls memory.new ≡ row op.StartProcess self.old ls memory.old }
    {
        memory.set_word(
            self.a.wrapping_sub(4),
            self.instruction.wrapping_add(self.b),
        )?;
        self.queue.put(memory, self.a - self.a % 4)
    }

    // endp
    #[inline]
    pub(crate) fn end_process(&mut self, memory: &mut Memory) -> Result<(), Fault>
        ensures { (ls : FourLinks) → finished result self.new ls memory.new ≡ row op.EndProcess self.old ls memory.old }
    {
        let counter = self.a.wrapping_add(4);
        let count = memory.word(counter)?;
        if count == 1 {
            self.instruction = memory.word(self.a)?;
            self.set_workspace(self.a);
        } else {
            memory.set_word(counter, count.wrapping_sub(1))?;
            self.running = false;
        }
        Ok(())
    }

    // stopp
    #[inline]
    pub(crate) fn stop_process(&mut self, memory: &mut Memory) -> Result<(), Fault>
        ensures { (ls : FourLinks) → finished result self.new ls memory.new ≡ row op.StopProcess self.old ls memory.old }
    {
        self.wait(memory)
    }

    // runp
    #[inline]
    pub(crate) fn run_process(&mut self, memory: &mut Memory) -> Result<(), Fault>
        ensures { (ls : FourLinks) → finished result self.new ls memory.new ≡ row op.RunProcess self.old ls memory.old }
    {
        self.schedule(memory, self.a)
    }

    // stoperr
    #[inline]
    pub(crate) fn stop_on_error(&mut self, memory: &mut Memory) -> Result<(), Fault>
        ensures { (ls : FourLinks) → finished result self.new ls memory.new ≡ row op.StopOnError self.old ls memory.old }
    {
        if self.error {
            self.wait(memory)
        } else {
            Ok(())
        }
    }

    // ldpri
    #[inline]
    pub(crate) fn load_priority(&mut self)
        ensures { (ls : FourLinks) (m : List ℕ) → Gave self.new ls m ≡ row op.LoadPriority self.old ls m }
    {
        self.push(1);
    }

    // stlb
    #[inline]
    pub(crate) fn store_low_back(&mut self)
        ensures { (ls : FourLinks) (m : List ℕ) → Gave self.new ls m ≡ row op.StoreLowBack self.old ls m }
    {
        self.queue.back = self.a;
        self.discard();
    }

    // stlf
    #[inline]
    pub(crate) fn store_low_front(&mut self)
        ensures { (ls : FourLinks) (m : List ℕ) → Gave self.new ls m ≡ row op.StoreLowFront self.old ls m }
    {
        self.queue.front = self.a;
        self.discard();
    }

    // sthf
    #[inline]
    pub(crate) fn store_high_front(&mut self) -> Result<(), Fault>
        ensures { (ls : FourLinks) (m : List ℕ) → finished result self.new ls m ≡ row op.StoreHighFront self.old ls m }
    {
        if self.a != NOT_PROCESS {
            return Err(Fault::HighPriority);
        }
        self.discard();
        Ok(())
    }

    // sthb
    #[inline]
    pub(crate) fn store_high_back(&mut self) -> Result<(), Fault>
        ensures { (ls : FourLinks) (m : List ℕ) → finished result self.new ls m ≡ row op.StoreHighBack self.old ls m }
    {
        if self.a != NOT_PROCESS {
            return Err(Fault::HighPriority);
        }
        self.discard();
        Ok(())
    }

    // savel
    #[inline]
    pub(crate) fn save_low(&mut self, memory: &mut Memory) -> Result<(), Fault>
        ensures { (ls : FourLinks) → finished result self.new ls memory.new ≡ row op.SaveLow self.old ls memory.old }
    {
        memory.set_word(self.a, self.queue.front)?;
        memory.set_word(self.a.wrapping_add(4), self.queue.back)?;
        self.discard();
        Ok(())
    }

    // saveh
    #[inline]
    pub(crate) fn save_high(&mut self, memory: &mut Memory) -> Result<(), Fault>
        ensures { (ls : FourLinks) → finished result self.new ls memory.new ≡ row op.SaveHigh self.old ls memory.old }
    {
        memory.set_word(self.a, NOT_PROCESS)?;
        memory.set_word(self.a.wrapping_add(4), NOT_PROCESS)?;
        self.discard();
        Ok(())
    }

    // alt
    #[inline]
    pub(crate) fn alt_start(&mut self, memory: &mut Memory) -> Result<(), Fault>
        ensures { (ls : FourLinks) → finished result self.new ls memory.new ≡ row op.AltStart self.old ls memory.old }
    {
        memory.set_word(self.workspace.wrapping_sub(12), ENABLING)
    }

    // altwt
    #[inline]
    pub(crate) fn alt_wait(&mut self, memory: &mut Memory) -> Result<(), Fault>
        ensures { (ls : FourLinks) → finished result self.new ls memory.new ≡ row op.AltWait self.old ls memory.old }
    {
        let state = self.workspace.wrapping_sub(12);
        memory.set_word(self.workspace, NONE_SELECTED)?;
        if memory.word(state)? == READY {
            return Ok(());
        }
        memory.set_word(state, WAITING)?;
        self.wait(memory)
    }

    // enbs
    #[inline]
    pub(crate) fn enable_skip(&mut self, memory: &mut Memory) -> Result<(), Fault>
        ensures { (ls : FourLinks) → finished result self.new ls memory.new ≡ row op.EnableSkip self.old ls memory.old }
    {
        if self.a == 0 {
            return Ok(());
        }
        memory.set_word(self.workspace.wrapping_sub(12), READY)
    }

    // diss
    #[inline]
    pub(crate) fn disable_skip(&mut self, memory: &mut Memory) -> Result<(), Fault>
        ensures { (ls : FourLinks) → finished result self.new ls memory.new ≡ row op.DisableSkip self.old ls memory.old }
    {
        let chosen = self.b != 0 && memory.word(self.workspace)? == NONE_SELECTED;
        if chosen {
            memory.set_word(self.workspace, self.a)?;
        }
        self.binary(u32::from(chosen));
        Ok(())
    }

    // sttimer
    #[inline]
    pub(crate) fn store_timer(&mut self)
        ensures { (ls : FourLinks) (m : List ℕ) → Gave self.new ls m ≡ row op.StoreTimer self.old ls m }
    {
        self.discard();
    }
}
