//! The code of a PAR around its components, and the words of each.
ghost use Rattle.std.specs.Prelude.{◌≡◌, ◌+◌, ◌∷◌, [], ◌++◌, OnOk, length, map};
ghost use Rattle.node_memory.specs.Words.{◌⊕◌, ◌⊖◌};
ghost use Rattle.occam_code.specs.Instructions as asm;
ghost use Rattle.occam_code.specs.Words.{as_word};
ghost use Rattle.occam_code.specs.Components.{components, words_below as distance, inside as words_inside, after_component as words_after_component, starts_code};

use crate::frame::FrameWords;
use crate::instructions::*;
use crate::words::{process_temporaries, processes_below};
use occam_core::CoreProcess;
use std::alloc::AllocError;
use t414_assembly::Statement;
use t414_decode::Function;

// How many components a PAR has, or 2^32 - 1 if there are more.
pub(crate) fn components_of(p: &CoreProcess) -> u32
    ensures { result ≡ as_word (length (components p.now)) }
{
    match p {
        CoreProcess::Parallel(_, others) => components_of(others).saturating_add(1),
        _ => 1,
    }
}

// By how many words the workspace of the next component is below that of a component: a process has four words of its own.
pub(crate) fn words_below(p: &CoreProcess) -> u32
    ensures { result ≡ distance p.now }
{
    processes_below(p).saturating_add(1).wrapping_mul(4)
}

// The words of the first component of a PAR, which keeps two words itself.
pub(crate) fn inside(words: FrameWords) -> FrameWords
    ensures { result ≡ words_inside words }
{
    FrameWords {
        base: words.base.wrapping_add(4),
        temporary: words.temporary.wrapping_add(2).wrapping_add(4),
    }
}

// The words of the component after one.
pub(crate) fn after_component(words: FrameWords, p: &CoreProcess) -> FrameWords
    ensures { result ≡ words_after_component words p.now }
{
    let below = words_below(p);
    FrameWords {
        base: words.base.wrapping_add(below),
        temporary: words
            .temporary
            .wrapping_add(process_temporaries(p))
            .wrapping_add(below),
    }
}

// The start of a component whose workspace is this number of words below, with 0 instead of how far it is to its code.
fn emit_start(code: &mut Vec<Statement>, below: u32) -> Result<(), AllocError>
    ensures { OnOk result (code.new.items ≡ code.old.items ++ asm.ldc 0 ∷ asm.ldlp (0 ⊖ below) ∷ asm.startp ∷ []) }
{
    put(code, Function::LoadConstant, 0)?;
    put(code, Function::LoadLocalPointer, 0u32.wrapping_sub(below))?;
    operate(code, START_PROCESS)
}

// The starts of the components of a PAR. The first is this number of words below.
pub(crate) fn emit_starts(
    code: &mut Vec<Statement>,
    below: u32,
    p: &CoreProcess,
) -> Result<(), AllocError>
    ensures { OnOk result (code.new.items ≡ code.old.items
        ++ starts_code below (map (λ p. asm.ldc 0) (components p.now)) (components p.now)) }
{
    emit_start(code, below)?;
    match p {
        CoreProcess::Parallel(first, others) => {
            emit_starts(code, below.wrapping_add(words_below(first)), others)
        }
        _ => Ok(()),
    }
}

// The same of the PAR of a component and others. The first has its four words below those of the process that
// starts it.
pub(crate) fn emit_starts_of(
    code: &mut Vec<Statement>,
    first: &CoreProcess,
    others: &CoreProcess,
) -> Result<(), AllocError>
    ensures { let parts = first.now ∷ components others.now in OnOk result (code.new.items ≡ code.old.items
        ++ starts_code 4 (map (λ p. asm.ldc 0) parts) parts) }
{
    emit_start(code, 4)?;
    emit_starts(code, 4u32.wrapping_add(words_below(first)), others)
}

// Where a PAR goes on, which isn't known yet, and how many processes have to end first, are kept in the words from `next`.
pub(crate) fn emit_joining(
    code: &mut Vec<Statement>,
    next: u32,
    processes: u32,
) -> Result<(), AllocError>
    ensures { OnOk result (code.new.items ≡ code.old.items
        ++ asm.ldc 0 ∷ asm.ldpi ∷ asm.stl next ∷ asm.ldc processes ∷ asm.stl (next ⊕ 1) ∷ []) }
{
    put(code, Function::LoadConstant, 0)?;
    operate(code, LOAD_POINTER_TO_INSTRUCTION)?;
    put(code, Function::StoreLocal, next)?;
    put(code, Function::LoadConstant, processes)?;
    put(code, Function::StoreLocal, next.wrapping_add(1))
}

// The end of a process of a PAR, which goes on at the word `next` if it is the last.
pub(crate) fn emit_end(code: &mut Vec<Statement>, next: u32) -> Result<(), AllocError>
    ensures { OnOk result (code.new.items ≡ code.old.items ++ asm.ldlp next ∷ asm.endp ∷ []) }
{
    put(code, Function::LoadLocalPointer, next)?;
    operate(code, END_PROCESS)
}
