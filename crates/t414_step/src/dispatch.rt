//! The dispatch on an instruction byte.

ghost use Rattle.std.specs.Prelude.{◌≡◌, ◌+◌, List, ℕ, min};

use crate::cpu::Cpu;
use crate::next::Next;
use link_channels::{Links, TransferDirection};
use node_memory::{Fault, Fetched, Memory};
use t414_decode::{ChannelOperation, Function, Operation, PlainOperation, decode, operation};

// A row that can't fault.
macro_rules! done {
    ($row:expr) => {{
        $row;
        Ok(())
    }};
}

// A row that can't fault, of the loop of bytes.
macro_rules! next {
    ($row:expr) => {{
        $row;
        Next::Byte
    }};
}

impl Cpu {
    ghost use Rattle.t414_decode.specs.Codes.{operation_of};
    ghost use Rattle.t414_step.specs.ChannelRows.{channel_row};
    ghost use Rattle.t414_step.specs.Next.{KeepsTurn, behind_byte, completed};
    ghost use Rattle.t414_decode.specs.declared.instruction.Function.TheVariants as function;
    ghost use Rattle.t414_step.specs.Answers.{finished};
    ghost use Rattle.link_channels.specs.declared.link.FourLinks.{FourLinks};
    ghost use Rattle.t414_step.specs.Rows.{row, operate, direct};
    ghost use Rattle.t414_step.specs.Step.{byte_done};

    // One operation on registers and memory.
    fn perform_any(&mut self, memory: &mut Memory, operation: PlainOperation) -> Result<(), Fault>
        ensures answer { (ls : FourLinks) → finished result self.new ls memory.new ≡ row operation self.old ls memory.old }
    {
        match operation {
            PlainOperation::Reverse => done!(self.reverse()),
            PlainOperation::LoadByte => self.load_byte(memory),
            PlainOperation::ByteSubscript => done!(self.byte_subscript()),
            PlainOperation::EndProcess => self.end_process(memory),
            PlainOperation::Difference => done!(self.difference()),
            PlainOperation::Add => self.add(),
            PlainOperation::GeneralCall => done!(self.general_call()),
            PlainOperation::Product => done!(self.product()),
            PlainOperation::GreaterThan => done!(self.greater_than()),
            PlainOperation::WordSubscript => done!(self.word_subscript()),
            PlainOperation::Subtract => self.subtract(),
            PlainOperation::StartProcess => self.start_process(memory),
            PlainOperation::SetError => self.set_error(),
            PlainOperation::CheckSubscriptFromZero => self.check_subscript_from_zero(),
            PlainOperation::StopProcess => self.stop_process(memory),
            PlainOperation::LongAdd => self.long_add(),
            PlainOperation::StoreLowBack => done!(self.store_low_back()),
            PlainOperation::StoreHighFront => self.store_high_front(),
            PlainOperation::Normalise => done!(self.normalise()),
            PlainOperation::LongDivide => self.long_divide(),
            PlainOperation::LoadPointerToInstruction => done!(self.load_pointer_to_instruction()),
            PlainOperation::StoreLowFront => done!(self.store_low_front()),
            PlainOperation::ExtendToDouble => done!(self.extend_to_double()),
            PlainOperation::LoadPriority => done!(self.load_priority()),
            PlainOperation::Remainder => self.remainder(),
            PlainOperation::Return => self.return_from_call(memory),
            PlainOperation::LoopEnd => self.loop_end(memory),
            PlainOperation::TestError => done!(self.test_error()),
            PlainOperation::TestProcessorAnalysing => done!(self.test_processor_analysing()),
            PlainOperation::Divide => self.divide(),
            PlainOperation::DisableSkip => self.disable_skip(memory),
            PlainOperation::LongMultiply => done!(self.long_multiply()),
            PlainOperation::Not => done!(self.not()),
            PlainOperation::ExclusiveOr => done!(self.exclusive_or()),
            PlainOperation::ByteCount => done!(self.byte_count()),
            PlainOperation::LongShiftRight => done!(self.long_shift_right()),
            PlainOperation::LongShiftLeft => done!(self.long_shift_left()),
            PlainOperation::LongSum => done!(self.long_sum()),
            PlainOperation::LongSubtract => self.long_subtract(),
            PlainOperation::RunProcess => self.run_process(memory),
            PlainOperation::ExtendToWord => done!(self.extend_to_word()),
            PlainOperation::StoreByte => self.store_byte(memory),
            PlainOperation::GeneralAdjustWorkspace => done!(self.general_adjust_workspace()),
            PlainOperation::SaveLow => self.save_low(memory),
            PlainOperation::SaveHigh => self.save_high(memory),
            PlainOperation::ShiftRight => done!(self.shift_right()),
            PlainOperation::ShiftLeft => done!(self.shift_left()),
            PlainOperation::MinimumInteger => done!(self.minimum_integer()),
            PlainOperation::AltStart => self.alt_start(memory),
            PlainOperation::AltWait => self.alt_wait(memory),
            PlainOperation::AltEnd => self.alt_end(memory),
            PlainOperation::And => done!(self.and()),
            PlainOperation::EnableSkip => self.enable_skip(memory),
            PlainOperation::MoveMessage => self.move_message(memory),
            PlainOperation::Or => done!(self.or()),
            PlainOperation::CheckSingle => self.check_single(),
            PlainOperation::CheckCountFromOne => self.check_count_from_one(),
            PlainOperation::LongDifference => done!(self.long_difference()),
            PlainOperation::StoreHighBack => self.store_high_back(),
            PlainOperation::Sum => done!(self.sum()),
            PlainOperation::Multiply => self.multiply(),
            PlainOperation::StoreTimer => done!(self.store_timer()),
            PlainOperation::StopOnError => self.stop_on_error(memory),
            PlainOperation::CheckWord => self.check_word(),
            PlainOperation::ClearHaltOnError => done!(self.clear_halt_on_error()),
            PlainOperation::SetHaltOnError => done!(self.set_halt_on_error()),
            PlainOperation::TestHaltOnError => done!(self.test_halt_on_error()),
        }
    }

    // The same by value, apart from the loops of steps: a loop keeps its registers, and what comes of its operations,
    // where no address is taken.
    #[inline(never)]
    fn perform_by_value(
        mut self,
        memory: &mut Memory,
        operation: PlainOperation,
    ) -> (Cpu, Result<(), Fault>)
        ensures answer { (ls : FourLinks) → finished result.1 result.0 ls memory.new ≡ row operation self ls memory.old }
    {
        let done = self.perform_any(memory, operation);
        (self, done)
    }

    // The same, with the registers in their place.
    #[inline(always)]
    fn perform_apart(&mut self, memory: &mut Memory, operation: PlainOperation) -> Result<(), Fault>
        ensures answer { (ls : FourLinks) → finished result self.new ls memory.new ≡ row operation self.old ls memory.old }
    {
        let (after, done) = self.perform_by_value(memory, operation);
        *self = after;
        done
    }

    // One operation on registers and memory, if it is a frequent one.
    #[inline(always)]
    fn perform(&mut self, memory: &mut Memory, operation: PlainOperation) -> Next
        ensures answer { (ls : FourLinks) → completed result self.new ls memory.new ≡ row operation self.old ls memory.old }
        ensures kept { KeepsTurn self.old self.new }
    {
        match operation {
            PlainOperation::Reverse => next!(self.reverse()),
            PlainOperation::LoadByte => Next::of(self.load_byte(memory)),
            PlainOperation::ByteSubscript => next!(self.byte_subscript()),
            PlainOperation::Difference => next!(self.difference()),
            PlainOperation::Add => Next::of(self.add()),
            PlainOperation::Product => next!(self.product()),
            PlainOperation::GreaterThan => next!(self.greater_than()),
            PlainOperation::WordSubscript => next!(self.word_subscript()),
            PlainOperation::Subtract => Next::of(self.subtract()),
            PlainOperation::Return => Next::of(self.return_from_call(memory)),
            PlainOperation::LoopEnd => self.turn_back(memory),
            PlainOperation::Not => next!(self.not()),
            PlainOperation::ExclusiveOr => next!(self.exclusive_or()),
            PlainOperation::StoreByte if memory.keeps(self.a) => {
                Next::of(self.store_byte(memory))
            }
            PlainOperation::ShiftRight => next!(self.shift_right()),
            PlainOperation::ShiftLeft => next!(self.shift_left()),
            PlainOperation::MinimumInteger => next!(self.minimum_integer()),
            PlainOperation::And => next!(self.and()),
            PlainOperation::Or => next!(self.or()),
            PlainOperation::Sum => next!(self.sum()),
            PlainOperation::Multiply => Next::of(self.multiply()),
            PlainOperation::CheckSubscriptFromZero => Next::of(self.check_subscript_from_zero()),
            _ => Next::Plain(operation),
        }
    }

    // One operation on a channel.
    #[inline(always)]
    #[tactic(auto, unfolding(crate::specs::ChannelRows::channel_row))]
    fn perform_channel(
        &mut self,
        memory: &mut Memory,
        links: &mut Links,
        operation: ChannelOperation,
    ) -> Result<(), Fault>
        ensures answer { finished result self.new links.new memory.new ≡ channel_row operation self.old links.old memory.old }
    {
        // All messages go one way, so that the loop of steps has it once.
        let (direction, transfer) = match operation {
            ChannelOperation::InputMessage => (TransferDirection::Input, self.transfer()),
            ChannelOperation::OutputMessage => (TransferDirection::Output, self.transfer()),
            ChannelOperation::OutputByte => {
                memory.set_word(self.workspace, self.a)?;
                (TransferDirection::Output, self.outgoing_transfer(1))
            }
            ChannelOperation::OutputWord => {
                memory.set_word(self.workspace, self.a)?;
                (TransferDirection::Output, self.outgoing_transfer(4))
            }
            ChannelOperation::ResetChannel => return self.reset_channel(memory, links),
            ChannelOperation::DisableChannel => return self.disable_channel(memory, links),
            ChannelOperation::EnableChannel => return self.enable_channel(memory, links),
        };
        self.message(memory, links, direction, transfer)
    }

    // The operation of a code.
    #[inline(always)]
    fn operate(&mut self, memory: &mut Memory, code: u32) -> Next
        ensures answer { (ls : FourLinks) → completed result self.new ls memory.new ≡ operate (operation_of code) code self.old ls memory.old }
        ensures kept { KeepsTurn self.old self.new }
    {
        match operation(code) {
            Some(Operation::Plain(operation)) => self.perform(memory, operation),
            Some(Operation::Channel(operation)) => Next::Channel(operation),
            None => Next::Fault(Fault::UnknownOperation(code)),
        }
    }

    // One function of an operand.
    #[inline(always)]
    fn apply(&mut self, memory: &mut Memory, function: Function, operand: u32) -> Next
        ensures answer { (ls : FourLinks) → completed result self.new ls memory.new ≡ direct function operand self.old ls memory.old }
        ensures kept { KeepsTurn self.old self.new }
    {
        match function {
            Function::Jump => {
                self.jump(operand);
                Next::Jumped
            }
            Function::LoadLocalPointer => next!(self.load_local_pointer(operand)),
            Function::Prefix => next!(self.prefix(operand)),
            Function::LoadNonLocal => Next::of(self.load_non_local(memory, operand)),
            Function::LoadConstant => next!(self.load_constant(operand)),
            Function::LoadNonLocalPointer => next!(self.load_non_local_pointer(operand)),
            Function::NegativePrefix => next!(self.negative_prefix(operand)),
            Function::LoadLocal => Next::of(self.load_local(memory, operand)),
            Function::AddConstant => Next::of(self.add_constant(operand)),
            Function::Call => Next::Call(operand),
            Function::ConditionalJump => next!(self.conditional_jump(operand)),
            Function::AdjustWorkspace => next!(self.adjust_workspace(operand)),
            Function::EqualsConstant => next!(self.equals_constant(operand)),
            Function::StoreLocal if memory.keeps(self.local(operand)) => {
                Next::of(self.store_local(memory, operand))
            }
            Function::StoreLocal => Next::StoreLocal(operand),
            Function::StoreNonLocal if memory.keeps(self.beyond(operand)) => {
                Next::of(self.store_non_local(memory, operand))
            }
            Function::StoreNonLocal => Next::StoreNonLocal(operand),
            Function::Operate => self.operate(memory, operand),
        }
    }

    // Goes on to the next instruction byte.
    #[inline(always)]
    fn pass_byte(&mut self)
        ensures { self.new ≡ behind_byte self.old }
    {
        self.instruction = self.instruction.wrapping_add(1);
        self.operand = 0;
    }

    // The byte 0, j, which goes as far as the prefixes before it say.
    #[inline(always)]
    #[tactic(auto, unfolding(crate::specs::Rows::direct))]
    fn jump_by_prefixes(&mut self) -> Next
        ensures answer { (ls : FourLinks) (m : List ℕ) → completed result self.new ls m ≡ direct function.Jump self.old.operand (behind_byte self.old) ls m }
        ensures kept { KeepsTurn self.old self.new }
    {
        let operand = self.operand;
        self.pass_byte();
        self.jump(operand);
        Next::Jumped
    }

    // One instruction byte, as far as registers and memory do it. It is inlined in the loop of bytes, so that the
    // address of the registers is nowhere taken.
    #[inline(always)]
    #[tactic(auto, unfolding(crate::specs::Step::byte_done))]
    pub(crate) fn do_byte(&mut self, memory: &mut Memory) -> Next
        ensures answer { (ls : FourLinks) → completed result self.new ls memory.new ≡ byte_done self.old ls memory.old }
        ensures running { self.new.running ≡ self.old.running }
        ensures counted { self.new.bytes ≡ min (self.old.bytes + 1) 1024 }
    {
        // After a fault the registers are given up, so the byte may be counted before it is read.
        self.bytes = self.bytes.min(1023) + 1;
        let byte = match memory.fetch(self.instruction) {
            Fetched::Kept(byte) => byte,
            Fetched::Behind => return self.jump_by_prefixes(),
            Fetched::Outside => return Next::Fault(Fault::OutsideMemory),
        };
        let (function, nibble) = decode(byte);
        let operand = self.operand | u32::from(nibble);
        self.pass_byte();
        self.apply(memory, function, operand)
    }

    // What is left of an instruction byte.
    #[inline(always)]
    pub(crate) fn complete(
        &mut self,
        memory: &mut Memory,
        links: &mut Links,
        next: Next,
    ) -> Result<(), Fault>
        ensures answer { finished result self.new links.new memory.new ≡ completed next self.old links.old memory.old }
    {
        match next {
            Next::Byte => Ok(()),
            Next::Jumped => self.slice(memory),
            Next::StoreLocal(operand) => self.store_local(memory, operand),
            Next::StoreNonLocal(operand) => self.store_non_local(memory, operand),
            Next::Call(operand) => self.call(memory, operand),
            Next::Index(index) => self.go_back(memory, index),
            Next::Plain(operation) => self.perform_apart(memory, operation),
            Next::Channel(operation) => self.perform_channel(memory, links, operation),
            Next::Fault(fault) => Err(fault),
        }
    }
}
