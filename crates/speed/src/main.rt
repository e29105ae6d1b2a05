// Runs steps on the desk's bus, to be timed: a loop with a store, a load, arithmetic, a call, a shift, a return and jumps.
#![tactic(auto)]

use devices::desk;
use machine::{Processor, step};
use std::io;

const STEPS: u32 = 100_000_000;

// ADD r0, #0x01 · MOV 0x10, r0 · MOV r1, 0x10 · ADC r1, r0 · JSR 0x08 · CMP r1, #0x80 · JNZ 0x00 · JMP 0x00 · ROL r2 · RTS
const LOOP: [u16; 10] = [
    0x0001, 0x9010, 0xD110, 0xF110, 0xB908, 0xA180, 0xB200, 0xB000, 0xF272, 0xBA00,
];

fn main(rt: HostRuntime) -> Result<(), io::Error> {
    let mut image = [0xB000; 256];
    image[..LOOP.len()].copy_from_slice(&LOOP);
    let mut processor = Processor::new();
    let mut bus = desk([0; 128]);
    let accesses = (0..STEPS)
        .filter(|_| step(&image, &mut processor, &mut bus).access.is_some())
        .count();
    println!(rt;
        "{STEPS} steps, {accesses} accesses, r0 {}",
        processor.registers[0]
    )
}
