//! Sizes of memories.

ghost use Rattle.std.specs.Prelude.{◌≡◌};
ghost use Rattle.node_memory.specs.Bytes.{IsMemorySize};

use bootstrap::is_memory_size;

/// A size that memory can have: the one that is asked for, if it can.
pub fn memory_size(size: usize) -> usize
    ensures size { IsMemorySize result }
    ensures kept { IsMemorySize size → result ≡ size }
{
    if is_memory_size(size) { size } else { 4096 }
}
