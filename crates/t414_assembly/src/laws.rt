//! What holds of every program.
ghost use Rattle.std.specs.Prelude.{◌≡◌, ℕ, List, length, map};
ghost use Rattle.t414_assembly.specs.declared.disassembly.Instruction.{Instruction};
ghost use Rattle.t414_assembly.specs.Program.{IsImage};
ghost use Rattle.t414_assembly.specs.Reassembled.{bytes_of_all, stated};

/// Instructions that are laid out as a program become their bytes, wherever it begins. So bytes that are disassembled
/// and assembled again are the same bytes.
pub fn reassembled_code_is_the_same()
    ensures { (origin : ℕ) (found : List Instruction) (starts bytes : List ℕ) →
        IsImage origin (map stated found) starts (length found) bytes → bytes ≡ bytes_of_all found }
{}
