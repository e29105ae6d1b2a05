// Words and their text.
use isa::{RegisterName, decode};
use refusal::Refusal;
use std::test::Fail;

#[test]
fn words_as_text(rt: HostRuntime) -> Result<(), Fail> {
    let table = [
        (0x0000, "ADD r0, #0x00"),
        (0x0105, "ADD r1, #0x05"),
        (0xF100, "ADD r1, r0"),
        (0x1A0C, "ADC r10, #0x0C"),
        (0x2BF0, "SUB r11, #0xF0"),
        (0x3C01, "SBC r12, #0x01"),
        (0x4D7F, "AND r13, #0x7F"),
        (0xFF5E, "OR r15, r14"),
        (0x69FF, "XOR r9, #0xFF"),
        (0x8880, "TST r8, #0x80"),
        (0xA70A, "CMP r7, #0x0A"),
        (0xC105, "MOV r1, #0x05"),
        (0xF1C0, "MOV r1, r0"),
        (0xD084, "MOV r0, 0x84"),
        (0xD000, "MOV r0, 0x00"),
        (0xF0D3, "MOV r0, (r3)"),
        (0x9103, "MOV 0x03, r1"),
        (0xF193, "MOV (r3), r1"),
        (0xB012, "JMP 0x12"),
        (0xF0B3, "JMP (r3)"),
        (0xB1AB, "JZ 0xAB"),
        (0xB212, "JNZ 0x12"),
        (0xB3CD, "JC 0xCD"),
        (0xB400, "JNC 0x00"),
        (0xF5BF, "JN (r15)"),
        (0xB6EF, "JNN 0xEF"),
        (0xB734, "JV 0x34"),
        (0xB856, "JNV 0x56"),
        (0xB912, "JSR 0x12"),
        (0xF9B3, "JSR (r3)"),
        (0xBA00, "RTS"),
        (0xBB00, "RTI"),
        (0xBC00, "CLI"),
        (0xBD00, "STI"),
        (0x7200, "SWP r2"),
        (0xF270, "SL0 r2"),
        (0xF271, "SR0 r2"),
        (0xF372, "ROL r3"),
        (0xF273, "ROR r2"),
        (0xF274, "SL1 r2"),
        (0xF275, "SR1 r2"),
        (0xF276, "RLC r2"),
        (0xF277, "RRC r2"),
        (0xF279, "ASR r2"),
    ];
    for (word, text) in table {
        let instruction = decode(word).ok_or("an undefined word")?;
        assert_eq!(rt; instruction.to_string(rt.alloc())?.as_str(), text);
    }
    Ok(())
}

#[test]
fn sixteen_registers(rt: HostRuntime) -> Result<(), Fail> {
    assert_eq!(rt; RegisterName::try_from(15)?.number(), 15);
    assert_eq!(rt; RegisterName::try_from(16), Err(Refusal::Register));
    Ok(())
}

#[test]
fn undefined_words(rt: HostRuntime) {
    assert!(rt; decode(0x7201).is_none());
    assert!(rt; decode(0xBE00).is_none());
}
