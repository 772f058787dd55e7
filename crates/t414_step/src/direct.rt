//! The functions of an instruction byte.

ghost use Rattle.std.specs.Prelude.{◌≡◌, List, ℕ, OnErr};

use crate::cpu::Cpu;
use node_memory::{Fault, Memory, add_checked};

#[tactic(auto, unfolding(crate::specs::Rows::direct))]
impl Cpu {
    ghost use Rattle.t414_decode.specs.declared.instruction.Function.TheVariants as function;
    ghost use Rattle.node_memory.specs.Bytes.{stored, with_word};
    ghost use Rattle.node_memory.specs.Words.{◌⊖◌};
    ghost use Rattle.t414_step.specs.Next.{KeepsTurn};
    ghost use Rattle.node_memory.specs.Effect.{Gave};
    ghost use Rattle.t414_step.specs.Answers.{finished};
    ghost use Rattle.link_channels.specs.declared.link.FourLinks.{FourLinks};
    ghost use Rattle.t414_step.specs.Rows.{direct, error_if, slice};

    // The error flag is set where the test holds.
    #[inline(always)]
    pub(crate) fn raise_if(&mut self, raised: bool) -> Result<(), Fault>
        ensures answer { (ls : FourLinks) (m : List ℕ) → finished result self.new ls m ≡ error_if raised self.old ls m }
        ensures kept { KeepsTurn self.old self.new }
    {
        if raised {
            if self.halt_on_error {
                return Err(Fault::ErrorSet);
            }
            self.error = true;
        }
        Ok(())
    }

    // Keeps the next instruction below the workspace.
    #[inline(always)]
    pub(crate) fn save(&self, memory: &mut Memory) -> Result<(), Fault>
        ensures saved { stored result memory.new ≡ with_word memory.old (self.now.workspace ⊖ 4) self.now.instruction }
        ensures unchanged { OnErr result (memory.new ≡ memory.old) }
    {
        memory.set_word(self.workspace.wrapping_sub(4), self.instruction)
    }

    // Goes to the end of the queue where the process has had its bytes.
    #[inline(always)]
    pub(crate) fn slice(&mut self, memory: &mut Memory) -> Result<(), Fault>
        ensures { (ls : FourLinks) → finished result self.new ls memory.new ≡ slice self.old ls memory.old }
    {
        if self.bytes == 1024 {
            self.save(memory)?;
            let workspace = self.workspace;
            self.queue.put(memory, workspace)?;
            self.running = false;
        }
        Ok(())
    }

    // j, without the slice
    #[inline(always)]
    pub(crate) fn jump(&mut self, operand: u32)
        ensures answer { (ls : FourLinks) (m : List ℕ) → slice self.new ls m ≡ direct function.Jump operand self.old ls m }
        ensures kept { KeepsTurn self.old self.new }
    {
        self.instruction = self.instruction.wrapping_add(operand);
    }

    // ldlp
    #[inline(always)]
    pub(crate) fn load_local_pointer(&mut self, operand: u32)
        ensures answer { (ls : FourLinks) (m : List ℕ) → Gave self.new ls m ≡ direct function.LoadLocalPointer operand self.old ls m }
        ensures kept { KeepsTurn self.old self.new }
    {
        self.push(self.local(operand));
    }

    // ldl
    #[inline(always)]
    pub(crate) fn load_local(&mut self, memory: &Memory, operand: u32) -> Result<(), Fault>
        ensures answer { (ls : FourLinks) → finished result self.new ls memory.now ≡ direct function.LoadLocal operand self.old ls memory.now }
        ensures kept { KeepsTurn self.old self.new }
    {
        let word = memory.word(self.local(operand))?;
        self.push(word);
        Ok(())
    }

    // stl
    #[inline(always)]
    pub(crate) fn store_local(&mut self, memory: &mut Memory, operand: u32) -> Result<(), Fault>
        ensures answer { (ls : FourLinks) → finished result self.new ls memory.new ≡ direct function.StoreLocal operand self.old ls memory.old }
        ensures kept { KeepsTurn self.old self.new }
    {
        memory.set_word(self.local(operand), self.a)?;
        self.discard();
        Ok(())
    }

    // adc
    #[inline(always)]
    pub(crate) fn add_constant(&mut self, operand: u32) -> Result<(), Fault>
        ensures answer { (ls : FourLinks) (m : List ℕ) → finished result self.new ls m ≡ direct function.AddConstant operand self.old ls m }
        ensures kept { KeepsTurn self.old self.new }
    {
        let (sum, overflows) = add_checked(self.a, operand);
        self.a = sum;
        self.raise_if(overflows)
    }

    // call
    #[inline(always)]
    pub(crate) fn call(&mut self, memory: &mut Memory, operand: u32) -> Result<(), Fault>
        ensures answer { (ls : FourLinks) → finished result self.new ls memory.new ≡ direct function.Call operand self.old ls memory.old }
        ensures kept { KeepsTurn self.old self.new }
    {
        let workspace = self.workspace;
        memory.set_word(workspace.wrapping_sub(4), self.c)?;
        memory.set_word(workspace.wrapping_sub(8), self.b)?;
        memory.set_word(workspace.wrapping_sub(12), self.a)?;
        memory.set_word(workspace.wrapping_sub(16), self.instruction)?;
        self.set_workspace(workspace.wrapping_sub(16));
        self.a = self.instruction;
        self.instruction = self.instruction.wrapping_add(operand);
        Ok(())
    }

    // cj
    #[inline(always)]
    pub(crate) fn conditional_jump(&mut self, operand: u32)
        ensures answer { (ls : FourLinks) (m : List ℕ) → Gave self.new ls m ≡ direct function.ConditionalJump operand self.old ls m }
        ensures kept { KeepsTurn self.old self.new }
    {
        if self.a == 0 {
            self.instruction = self.instruction.wrapping_add(operand);
        } else {
            self.discard();
        }
    }

    // pfix
    #[inline(always)]
    pub(crate) fn prefix(&mut self, operand: u32)
        ensures answer { (ls : FourLinks) (m : List ℕ) → Gave self.new ls m ≡ direct function.Prefix operand self.old ls m }
        ensures kept { KeepsTurn self.old self.new }
    {
        self.operand = operand << 4;
    }

    // nfix
    #[inline(always)]
    pub(crate) fn negative_prefix(&mut self, operand: u32)
        ensures answer { (ls : FourLinks) (m : List ℕ) → Gave self.new ls m ≡ direct function.NegativePrefix operand self.old ls m }
        ensures kept { KeepsTurn self.old self.new }
    {
        self.operand = !operand << 4;
    }

    // ldnl
    #[inline(always)]
    pub(crate) fn load_non_local(&mut self, memory: &Memory, operand: u32) -> Result<(), Fault>
        ensures answer { (ls : FourLinks) → finished result self.new ls memory.now ≡ direct function.LoadNonLocal operand self.old ls memory.now }
        ensures kept { KeepsTurn self.old self.new }
    {
        self.a = memory.word(self.beyond(operand))?;
        Ok(())
    }

    // ldc
    #[inline(always)]
    pub(crate) fn load_constant(&mut self, operand: u32)
        ensures answer { (ls : FourLinks) (m : List ℕ) → Gave self.new ls m ≡ direct function.LoadConstant operand self.old ls m }
        ensures kept { KeepsTurn self.old self.new }
    {
        self.push(operand);
    }

    // ldnlp
    #[inline(always)]
    pub(crate) fn load_non_local_pointer(&mut self, operand: u32)
        ensures answer { (ls : FourLinks) (m : List ℕ) → Gave self.new ls m ≡ direct function.LoadNonLocalPointer operand self.old ls m }
        ensures kept { KeepsTurn self.old self.new }
    {
        self.a = self.beyond(operand);
    }

    // ajw
    #[inline(always)]
    pub(crate) fn adjust_workspace(&mut self, operand: u32)
        ensures answer { (ls : FourLinks) (m : List ℕ) → Gave self.new ls m ≡ direct function.AdjustWorkspace operand self.old ls m }
        ensures kept { KeepsTurn self.old self.new }
    {
        self.set_workspace(self.local(operand));
    }

    // eqc
    #[inline(always)]
    pub(crate) fn equals_constant(&mut self, operand: u32)
        ensures answer { (ls : FourLinks) (m : List ℕ) → Gave self.new ls m ≡ direct function.EqualsConstant operand self.old ls m }
        ensures kept { KeepsTurn self.old self.new }
    {
        self.a = u32::from(self.a == operand);
    }

    // stnl
    #[inline(always)]
    pub(crate) fn store_non_local(&mut self, memory: &mut Memory, operand: u32) -> Result<(), Fault>
        ensures answer { (ls : FourLinks) → finished result self.new ls memory.new ≡ direct function.StoreNonLocal operand self.old ls memory.old }
        ensures kept { KeepsTurn self.old self.new }
    {
        memory.set_word(self.beyond(operand), self.b)?;
        self.discard_two();
        Ok(())
    }
}

impl Cpu {
    ghost use Rattle.node_memory.specs.Words.{◌⊕◌, ◌⊗◌};

    // The address of a word that many above the workspace.
    pub(crate) fn local(&self, words: u32) -> u32
        ensures { result ≡ self.now.workspace ⊕ 4 ⊗ words }
    {
        self.workspace.wrapping_add(4u32.wrapping_mul(words))
    }

    // The address of a word that many above A.
    pub(crate) fn beyond(&self, words: u32) -> u32
        ensures { result ≡ self.now.a ⊕ 4 ⊗ words }
    {
        self.a.wrapping_add(4u32.wrapping_mul(words))
    }
}
