//! Steps the processor through loops of instruction bytes: `arithmetic`, `memory`, `lend`, `channel` and `sieve`.

use crate::processor::{cpu_at, place};
use crate::selection::Selection;
use link_channels::Links;
use node_memory::Memory;
use std::alloc::Global;
use std::io;
use t414_step::run;

/// The address of the first byte of a loop.
const START: u32 = 0x8000_0100;

/// The workspace of a loop. Its second word is printed at the end.
const WORKSPACE: u32 = 0x8000_0200;

/// A loop of arithmetic, logic and a jump that is taken now and then.
pub const ARITHMETIC: [u8; 24] = [
    0x40, 0xd0, // ldc 0; stl 0
    0x40, 0xd1, // ldc 0; stl 1
    0x70, 0x81, 0xd0, // ldl 0; adc 1; stl 0
    0x71, 0x70, 0xf2, 0xd1, // ldl 1; ldl 0; bsub; stl 1
    0x71, 0x23, 0xf3, 0xd2, // ldl 1; xor; stl 2
    0x70, 0x4f, 0x24, 0xf6, 0xa2, // ldl 0; ldc 15; and; cj over two bytes
    0x40, 0xa0, // ldc 0; cj over none
    0x61, 0x0c, // j to ldl 0
];

const MEMORY: [u8; 18] = [
    0x23, 0x10, 0xd0, // ldlp 48; stl 0
    0x40, 0x70, 0x23, 0xfb, // ldc 0; ldl 0; sb
    0x70, 0xf1, 0x83, // ldl 0; lb; adc 3
    0x70, 0x23, 0xfb, // ldl 0; sb
    0x70, 0xf1, 0xd1, // ldl 0; lb; stl 1
    0x60, 0x01, // j to ldc 0
];

const LEND: [u8; 18] = [
    0x40, 0xd2, // ldc 0; stl 2
    0x27, 0x2f, 0x2f, 0x2f, 0x2f, 0x2f, 0x2f, 0x4f, 0xd3, // ldc 7FFFFFFF; stl 3
    0x71, 0x81, 0xd1, // ldl 1; adc 1; stl 1
    0x12, 0x47, 0x22, 0xf1, // ldlp 2; ldc 7; lend back to ldl 1
];

/// Two processes: the one counts and sends each number as a word through a soft channel, and the other takes it.
const CHANNEL: [u8; 22] = [
    0x24, 0xf2, 0xd5, // mint; stl 5, the channel
    0x48, 0x24, 0x10, 0xfd, // ldc 8; ldlp 64; startp
    0x71, 0x81, 0xd1, // ldl 1; adc 1; stl 1
    0x15, 0x71, 0xff, // ldlp 5; ldl 1; outword
    0x60, 0x08, // j to ldl 1
    0x11, 0x63, 0x15, 0x44, 0xf7, // ldlp 1; ldlp -59; ldc 4; in
    0x60, 0x09, // j to ldlp 1
];

/// Marks the multiples of 2 to 31 in 1,024 bytes, again and again.
const SIEVE: [u8; 44] = [
    0x28, 0x10, 0xd3, 0x40, 0xd1, // ldlp 128; stl 3; ldc 0; stl 1
    0x42, 0xd0, // ldc 2; stl 0
    0x70, 0x70, 0xf2, 0xd2, // ldl 0; ldl 0; bsub; stl 2
    0x41, 0x73, 0x72, 0xf2, 0x23, 0xfb, // ldc 1; ldl 3; ldl 2; bsub; sb
    0x72, 0x70, 0xf2, 0xd2, // ldl 2; ldl 0; bsub; stl 2
    0x24, 0x20, 0x40, 0x72, 0xf9, 0xc0, // ldc 1024; ldl 2; gt; eqc 0
    0x61, 0xae, // cj to ldc 1
    0x70, 0x81, 0xd0, // ldl 0; adc 1; stl 0
    0x22, 0x40, 0x70, 0xf9, 0xc0, // ldc 32; ldl 0; gt; eqc 0
    0x61, 0xa0, // cj to ldl 0
    0x71, 0x81, 0xd1, // ldl 1; adc 1; stl 1
    0x62, 0x09, // j to ldc 2
];

/// The loops, by name.
const LOOPS: [(&str, &[u8]); 5] = [
    ("arithmetic", &ARITHMETIC),
    ("memory", &MEMORY),
    ("lend", &LEND),
    ("channel", &CHANNEL),
    ("sieve", &SIEVE),
];

// Runs a loop for `count` steps, and prints what came of it.
fn run_loop(rt: &impl Print, alloc: Global, name: &str, code: &[u8], count: u64) -> io::Result<()> {
    let mut memory = Memory::new(alloc, 4096)?;
    if place(&mut memory, START, code).is_err() {
        return Ok(());
    }
    let mut cpu = cpu_at(START, WORKSPACE, 0);
    let mut links = Links::new();
    let (done, _) = run(&mut cpu, &mut memory, &mut links, count);
    let word = memory.word(WORKSPACE + 4).unwrap_or(0);
    println!(rt; "{name}: {done} bytes, word {word}")
}

/// Runs the loops that are asked for, COUNT bytes each.
pub fn measure(rt: &impl Print, alloc: Global, selection: Selection<'_>) -> io::Result<()> {
    for (name, code) in LOOPS {
        if selection.runs(name) {
            run_loop(rt, alloc, name, code, selection.count)?;
        }
    }
    Ok(())
}
