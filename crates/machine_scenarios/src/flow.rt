// Loads and stores, jumps, calls and returns, undefined words.
use crate::station::{Row, Station, flags_of, follow};
use machine::Access;

// A load's access.
fn read(at: u8, byte: u8) -> Access {
    Access::Read { at, byte }
}

// A store's access.
fn write(at: u8, byte: u8) -> Access {
    Access::Write { at, byte }
}

// A word with r1 = 0x10 and r2 = 0x80, memory full of 0x55: its access, r1 after it, and what its address then holds.
#[test]
fn loads_and_stores(rt: HostRuntime) {
    let table = [
        // MOV r1, 0x12 and MOV r1, (r1): the address is the old r1
        (0xD112, read(0x12, 0x55), 0x55, 0x55),
        (0xF1D1, read(0x10, 0x55), 0x55, 0x55),
        // MOV r1, 0xC0: no device stands there
        (0xD1C0, read(0xC0, 0x00), 0x00, 0x00),
        // MOV 0x7F, r1, MOV (r2), r1 and MOV (r1), r1
        (0x917F, write(0x7F, 0x10), 0x10, 0x10),
        (0xF192, write(0x80, 0x10), 0x10, 0x10),
        (0xF191, write(0x10, 0x10), 0x10, 0x10),
        // MOV 0xC0, r1 is lost
        (0x91C0, write(0xC0, 0x10), 0x10, 0x00),
    ];
    for (word, access, r1, held) in table {
        let mut station = Station::new(0, &[word]);
        station.processor.registers[1] = 0x10;
        station.processor.registers[2] = 0x80;
        station.processor.flags = flags_of("ZNV");
        let record = station.step();
        assert_eq!(rt; record.access, Some(access));
        assert_eq!(rt; station.processor.flags, flags_of("ZNV"));
        assert_eq!(rt;
            (station.processor.registers[1], station.processor.pc),
            (r1, 1)
        );
        let (Access::Read { at, .. } | Access::Write { at, .. }) = access;
        assert_eq!(rt; station.read(at), held);
    }
}

// Where a jump to 0x40 leads with these flags; PC goes on to 1 where it is not taken.
#[test]
fn jumps(rt: HostRuntime) {
    let table = [
        (0xB040, "", 0x40),
        (0xF0B3, "ZCNV", 0x40),
        (0xB140, "Z", 0x40),
        (0xB140, "CNV", 1),
        (0xB240, "CNV", 0x40),
        (0xB240, "Z", 1),
        (0xB340, "C", 0x40),
        (0xB340, "ZNV", 1),
        (0xB440, "ZNV", 0x40),
        (0xF4B3, "C", 1),
        (0xB540, "N", 0x40),
        (0xB540, "ZCV", 1),
        (0xB640, "ZCV", 0x40),
        (0xB640, "N", 1),
        (0xB740, "V", 0x40),
        (0xB740, "ZCN", 1),
        (0xF8B3, "ZCN", 0x40),
        (0xB840, "V", 1),
    ];
    for (word, flags, pc) in table {
        let mut station = Station::new(0, &[word]);
        station.processor.registers[3] = 0x40;
        station.processor.flags = flags_of(flags);
        follow(&rt, &mut station, &[Row::new(0, pc, 0, flags)]);
    }
}

// JSR 0x02, then CMP r0, #0x00 sets Z, and RTS goes back to 1 with Z as the callee left it and C as the callee cleared it.
#[test]
fn a_return_leaves_the_flags(rt: HostRuntime) {
    let mut station = Station::new(0, &[0xB902, 0x0000, 0xA000, 0xBA00]);
    station.processor.flags = flags_of("C");
    follow(
        &rt,
        &mut station,
        &[
            Row::new(0, 2, 1, "C"),
            Row::new(2, 3, 1, "Z"),
            Row::new(3, 1, 0, "Z"),
        ],
    );
    assert_eq!(rt; station.processor.stack[0].flags, flags_of("C"));
}

// JSR 0x00 at 0, again and again: the stack pointer goes from 15 to 0; RTS then leads it from 0 to 15.
#[test]
fn the_stack_goes_round(rt: HostRuntime) {
    let mut station = Station::new(0, &[0xB900, 0xBA00]);
    for call in 1..17u8 {
        follow(&rt, &mut station, &[Row::new(0, 0, call % 16, "")]);
    }
    station.processor.pc = 1;
    follow(&rt, &mut station, &[Row::new(1, 1, 15, "")]);
}

// 0x7201, 0xBE00 and 0xE123 only move PC; from 255 it goes to 0.
#[test]
fn undefined_words(rt: HostRuntime) {
    for word in [0x7201, 0xBE00, 0xE123] {
        let mut station = Station::new(255, &[word]);
        station.processor.registers[2] = 0x12;
        station.processor.flags = flags_of("CV");
        station.processor.pc = 255;
        let mut due = station.processor.registers;
        due[2] = 0x12;
        follow(&rt, &mut station, &[Row::new(255, 0, 0, "CV")]);
        assert_eq!(rt; station.processor.registers, due);
    }
}
