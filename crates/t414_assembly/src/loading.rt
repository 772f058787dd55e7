//! The boot for code that a boot can't take.
ghost use Rattle.std.specs.Prelude.{◌≡◌, ◌<◌, ◌≤◌, IfOk, length};

use crate::layout::{LayoutFault, lay_out};
use crate::statement::{Operand, Statement};
use crate::writing::MOST_CODE;
use std::alloc::Global;
use t414_decode::Function;

/// Where the code of a boot begins.
pub const BOOTED: u32 = 0x8000_0048;

/// Where poked code begins, after the boot that jumps to it.
pub const LOADED: u32 = 0x8000_0050;

/// The code of a boot that moves the workspace to the first word after `length` bytes at `LOADED`, and jumps to
/// `LOADED`. It has 8 bytes, so a boot leaves the workspace at `LOADED`, and it changes no register but these two.
pub fn loader(alloc: Global, length: u32) -> Result<Vec<u8>, LayoutFault> {
    let words = length.min(MOST_CODE).div_ceil(4);
    let place = 3;
    let statements = [
        Statement::Instruction(Function::AdjustWorkspace, Operand::Number(words)),
        Statement::Instruction(Function::Jump, Operand::Label(place, 0)),
        Statement::Align(8),
    ];
    Ok(lay_out(alloc, BOOTED, &statements)?.bytes)
}
