// Operations on registers: results and flags.
use crate::station::{Station, flags_of};
use machine::StepRecord;
use std::process::Abort;

// A word on r1 and r2, and r1 and the flags after it.
#[derive(Clone, Copy)]
struct Case {
    word: u16,
    r1: u8,
    r2: u8,
    before: &'static str,
    value: u8,
    after: &'static str,
}

// A case of its parts.
const fn of(
    word: u16,
    r1: u8,
    r2: u8,
    before: &'static str,
    value: u8,
    after: &'static str,
) -> Case {
    Case {
        word,
        r1,
        r2,
        before,
        value,
        after,
    }
}

// Runs each case: PC goes on by one, there is no access, and no other register changes.
fn compare(rt: &impl Abort, cases: &[Case]) {
    for case in cases {
        let mut station = Station::new(0, &[case.word]);
        station.processor.registers[1] = case.r1;
        station.processor.registers[2] = case.r2;
        station.processor.flags = flags_of(case.before);
        let mut due = station.processor.registers;
        due[1] = case.value;
        let record = station.step();
        let expected = StepRecord {
            address: 0,
            handler: false,
            access: None,
            interrupted: false,
        };
        assert_eq!(rt; record, expected);
        let processor = station.processor;
        assert_eq!(rt; processor.flags, flags_of(case.after));
        assert_eq!(rt;
            (processor.registers, processor.pc, processor.sp.place()),
            (due, 1, 0)
        );
    }
}

#[test]
fn sums(rt: HostRuntime) {
    compare(
        &rt,
        &[
            // ADD r1, r2
            of(0xF102, 0x7F, 0x01, "C", 0x80, "NV"),
            of(0xF102, 0x01, 0x02, "ZCNV", 0x03, ""),
            of(0xF102, 0xFF, 0x01, "", 0x00, "ZC"),
            of(0xF102, 0x80, 0x80, "", 0x00, "ZCV"),
            of(0xF102, 0xFE, 0xFD, "", 0xFB, "CN"),
            // ADD r1, #0x01 with IE
            of(0x0101, 0x7E, 0x00, "E", 0x7F, "E"),
            // ADC r1, r2
            of(0xF112, 0x7F, 0x00, "C", 0x80, "NV"),
            of(0xF112, 0xFF, 0xFF, "C", 0xFF, "CN"),
            of(0xF112, 0x10, 0x01, "", 0x11, ""),
            // ADC r1, #0x00
            of(0x1100, 0xFF, 0x00, "C", 0x00, "ZC"),
        ],
    );
}

#[test]
fn differences(rt: HostRuntime) {
    compare(
        &rt,
        &[
            // SUB r1, r2
            of(0xF122, 0x00, 0x01, "", 0xFF, "CN"),
            of(0xF122, 0x80, 0x01, "C", 0x7F, "V"),
            of(0xF122, 0x05, 0x05, "CNV", 0x00, "Z"),
            of(0xF122, 0x7F, 0xFF, "", 0x80, "CNV"),
            // SUB r1, #0x02
            of(0x2102, 0x0A, 0x00, "C", 0x08, ""),
            // SBC r1, r2
            of(0xF132, 0x00, 0xFF, "C", 0x00, "ZC"),
            of(0xF132, 0x80, 0x00, "C", 0x7F, "V"),
            of(0xF132, 0x05, 0x03, "", 0x02, ""),
            // CMP r1, r2 and CMP r1, #0x05: r1 stays
            of(0xF1A2, 0x00, 0x01, "", 0x00, "CN"),
            of(0xA105, 0x05, 0x00, "CNV", 0x05, "Z"),
        ],
    );
}

#[test]
fn logic(rt: HostRuntime) {
    compare(
        &rt,
        &[
            // AND, OR, XOR: C and V stay
            of(0xF142, 0xF0, 0x3C, "CV", 0x30, "CV"),
            of(0x4155, 0xAA, 0x00, "", 0x00, "Z"),
            of(0xF152, 0x81, 0x18, "ZC", 0x99, "CN"),
            of(0x5100, 0x00, 0x00, "NV", 0x00, "ZV"),
            of(0xF162, 0xFF, 0xFF, "N", 0x00, "Z"),
            of(0x610F, 0x70, 0x00, "", 0x7F, ""),
            // TST: r1 stays
            of(0xF182, 0x81, 0x80, "CV", 0x81, "CNV"),
            of(0x8101, 0xFE, 0x00, "", 0xFE, "Z"),
            // SWP
            of(0x7100, 0xA5, 0x00, "CV", 0x5A, "CV"),
            of(0x7100, 0x0F, 0x00, "", 0xF0, "N"),
            // MOV r1, r2 and MOV r1, #0x00 set no flag
            of(0xF1C2, 0x11, 0x80, "ZC", 0x80, "ZC"),
            of(0xC100, 0x11, 0x00, "NV", 0x00, "NV"),
        ],
    );
}

#[test]
fn shifts(rt: HostRuntime) {
    compare(
        &rt,
        &[
            // SL0, SL1, ROL, RLC
            of(0xF170, 0x81, 0x00, "V", 0x02, "CV"),
            of(0xF174, 0x40, 0x00, "C", 0x81, "N"),
            of(0xF172, 0x80, 0x00, "", 0x01, "C"),
            of(0xF172, 0x40, 0x00, "C", 0x80, "N"),
            of(0xF176, 0x80, 0x00, "", 0x00, "ZC"),
            of(0xF176, 0x01, 0x00, "C", 0x03, ""),
            // SR0, SR1, ASR, ROR, RRC
            of(0xF171, 0x01, 0x00, "", 0x00, "ZC"),
            of(0xF175, 0x02, 0x00, "C", 0x81, "N"),
            of(0xF179, 0x81, 0x00, "", 0xC0, "CN"),
            of(0xF179, 0x7E, 0x00, "C", 0x3F, ""),
            of(0xF173, 0x01, 0x00, "", 0x80, "CN"),
            of(0xF177, 0x01, 0x00, "", 0x00, "ZC"),
            of(0xF177, 0x02, 0x00, "C", 0x81, "N"),
        ],
    );
}
