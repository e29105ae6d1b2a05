// Each image is a few words from address 0 on, then 0x0000 (ADD r0, #0x00) up to 255.
use refusal::Refusal;
use std::process::Abort;
use vetting::{Depths, vet};

// The end word.
const END: u32 = 0x8000_0000;

// A sheet of the end word alone.
const ALONE: [u32; 1] = [END];

// r8 and r9 for the handler.
const HANDLER_REGISTERS: [u32; 2] = [0x4000_0300, END];

// The range 0x00 to 0x0F for main, r8 and r9 for the handler.
const GUARDED: [u32; 3] = [0x0000_000F, 0x4000_0300, END];

// STI, and ADD r0, #0x00, which does nothing that matters here.
const STI: u16 = 0xBD00;

const ADD: u16 = 0x0000;

// The image of some words.
fn image_of(words: &[u16]) -> [u16; 256] {
    let mut image = [0u16; 256];
    for (place, word) in image.iter_mut().zip(words) {
        *place = *word;
    }
    image
}

fn depths(main: u8, handler: u8, total: u8) -> Result<Depths, Refusal> {
    Ok(Depths {
        main,
        handler,
        total,
    })
}

// A first word, then as many calls one within the other: from address 5 on, each but the last enters the pair of words
// behind its own, JSR and RTS. The handler at 1 returns at once.
fn nested(first: u16, calls: u8) -> [u16; 256] {
    let mut image = image_of(&[0xB002, 0xBB00, first, 0xB905, 0xB004]);
    for (place, at) in image.iter_mut().zip(0..=255u8).skip(5).take(40) {
        *place = if at % 2 == 1 && at.wrapping_sub(3) / 2 < calls {
            0xB902 + u16::from(at)
        } else {
            0xBA00
        };
    }
    image
}

// An image with a sheet, and the answer that is due.
#[derive(Clone, Copy)]
struct Case {
    name: &'static str,
    words: &'static [u16],
    sheet: &'static [u32],
    answer: Result<Depths, Refusal>,
}

// Vets each case and compares.
fn compare(rt: &impl Abort, cases: &[Case]) {
    for case in cases {
        assert_eq!(rt;
            vet(&image_of(case.words), case.sheet),
            case.answer,
            "{}",
            case.name
        );
    }
}

#[test]
fn sizes(rt: HostRuntime) {
    assert_eq!(rt; vet(&[0xB000; 256], &ALONE), depths(0, 0, 0));
    assert_eq!(rt; vet(&[0xB000; 255], &ALONE), Err(Refusal::ImageSize));
    assert_eq!(rt; vet(&[0xB000; 257], &ALONE), Err(Refusal::ImageSize));
    assert_eq!(rt;
        vet(&[], &[]),
        Err(Refusal::ImageSize),
        "the image comes before the sheet"
    );
}

#[test]
fn long_sheets(rt: HostRuntime) {
    let image = [0xB000; 256];
    let mut long = [0u32; 65];
    long[64] = END;
    assert_eq!(rt; vet(&image, &long), Err(Refusal::SheetEnd), "65 words");
    assert_eq!(rt; vet(&image, &long[1..65]), depths(0, 0, 0), "64 words");
}

#[test]
fn sheets(rt: HostRuntime) {
    compare(
        &rt,
        &[
            Case {
                name: "no word",
                words: &[],
                sheet: &[],
                answer: Err(Refusal::SheetEnd),
            },
            Case {
                name: "no end word",
                words: &[],
                sheet: &[0x0000_000F],
                answer: Err(Refusal::SheetEnd),
            },
            Case {
                name: "two end words",
                words: &[],
                sheet: &[END, END],
                answer: Err(Refusal::SheetEnd),
            },
            Case {
                name: "the end not last",
                words: &[],
                sheet: &[END, 0x0000_000F],
                answer: Err(Refusal::SheetEnd),
            },
            Case {
                name: "a bit in the end word",
                words: &[],
                sheet: &[0x8000_0001],
                answer: Err(Refusal::SheetWord { index: 0 }),
            },
            Case {
                name: "an unknown kind",
                words: &[],
                sheet: &[0xF, 0xC000_0000, END],
                answer: Err(Refusal::SheetWord { index: 1 }),
            },
            Case {
                name: "bit 16 of a range",
                words: &[],
                sheet: &[0x0001_0000, END],
                answer: Err(Refusal::SheetWord { index: 0 }),
            },
            Case {
                name: "bit 16 of registers",
                words: &[],
                sheet: &[0x4001_0000, END],
                answer: Err(Refusal::SheetWord { index: 0 }),
            },
            Case {
                name: "a turned range",
                words: &[],
                sheet: &[0xF, 0x0000_0500, END],
                answer: Err(Refusal::SheetRange { index: 1 }),
            },
            Case {
                name: "the words in their order",
                words: &[],
                sheet: &[0x0000_0500, 0xC000_0000, END],
                answer: Err(Refusal::SheetRange { index: 0 }),
            },
        ],
    );
}

#[test]
fn main_rules(rt: HostRuntime) {
    compare(
        &rt,
        &[
            Case {
                name: "an undefined word",
                words: &[0xBE00],
                sheet: &ALONE,
                answer: Err(Refusal::MainWord { at: 0 }),
            },
            Case {
                name: "JMP (r3)",
                words: &[0, 0xF0B3],
                sheet: &ALONE,
                answer: Err(Refusal::MainWord { at: 1 }),
            },
            Case {
                name: "JSR (r3)",
                words: &[0, 0, 0xF9B3],
                sheet: &ALONE,
                answer: Err(Refusal::MainWord { at: 2 }),
            },
            Case {
                name: "RTI",
                words: &[0xBD00, 0xBB00],
                sheet: &ALONE,
                answer: Err(Refusal::MainWord { at: 1 }),
            },
            Case {
                name: "RTS",
                words: &[0xBA00],
                sheet: &ALONE,
                answer: Err(Refusal::MainReturn { at: 0 }),
            },
            Case {
                name: "RTS, with a list and without",
                words: &[0xB902, 0xB002, 0xBA00],
                sheet: &ALONE,
                answer: Err(Refusal::MainReturn { at: 2 }),
            },
            Case {
                name: "ADD r8, #0x05",
                words: &[0, 0x0805],
                sheet: &HANDLER_REGISTERS,
                answer: Err(Refusal::MainRegister { at: 1 }),
            },
            Case {
                name: "MOV r0, r9",
                words: &[0, 0xF0C9],
                sheet: &HANDLER_REGISTERS,
                answer: Err(Refusal::MainRegister { at: 1 }),
            },
            Case {
                name: "CMP r8, #0x00 names it too",
                words: &[0, 0xA800],
                sheet: &HANDLER_REGISTERS,
                answer: Err(Refusal::MainRegister { at: 1 }),
            },
            Case {
                name: "MOV r0, r10",
                words: &[0, 0xF0CA],
                sheet: &HANDLER_REGISTERS,
                answer: depths(0, 0, 0),
            },
            Case {
                name: "what lies behind a word that breaks 7 counts",
                words: &[0, 0, 0, 0x0800, 0, 0xBE00],
                sheet: &HANDLER_REGISTERS,
                answer: Err(Refusal::MainWord { at: 5 }),
            },
        ],
    );
}

#[test]
fn handler_rules(rt: HostRuntime) {
    compare(
        &rt,
        &[
            Case {
                name: "an undefined word",
                words: &[0xB002, 0xBE00, 0xBD00, 0xB003],
                sheet: &ALONE,
                answer: Err(Refusal::HandlerWord { at: 1 }),
            },
            Case {
                name: "JMP (r3)",
                words: &[0xB002, 0xF0B3, 0xBD00, 0xB003],
                sheet: &ALONE,
                answer: Err(Refusal::HandlerWord { at: 1 }),
            },
            Case {
                name: "MOV (r3), r0",
                words: &[0xB002, 0xB004, 0xBD00, 0xB003, 0xF093, 0xBB00],
                sheet: &ALONE,
                answer: Err(Refusal::HandlerWord { at: 4 }),
            },
            Case {
                name: "STI",
                words: &[0xB002, 0xB004, 0xBD00, 0xB003, 0xBD00, 0xBB00],
                sheet: &ALONE,
                answer: Err(Refusal::HandlerWord { at: 4 }),
            },
            Case {
                name: "RTS with an empty list",
                words: &[0xB002, 0xBA00, 0xBD00, 0xB003],
                sheet: &ALONE,
                answer: Err(Refusal::HandlerReturn { at: 1 }),
            },
            Case {
                name: "RTI with a filled list",
                words: &[0xB002, 0xB904, 0xBD00, 0xB003, 0xBB00],
                sheet: &ALONE,
                answer: Err(Refusal::HandlerReturn { at: 4 }),
            },
            Case {
                name: "ADD r0, #0x01",
                words: &[0xB002, 0xB004, 0xBD00, 0xB003, 0x0001, 0xBB00],
                sheet: &GUARDED,
                answer: Err(Refusal::HandlerWrite { at: 4 }),
            },
            Case {
                name: "MOV 0x0F, r8",
                words: &[0xB002, 0xB004, 0xBD00, 0xB003, 0x980F, 0xBB00],
                sheet: &GUARDED,
                answer: Err(Refusal::HandlerWrite { at: 4 }),
            },
            Case {
                name: "MOV 0x10, r8",
                words: &[0xB002, 0xB004, 0xBD00, 0xB003, 0x9810, 0xBB00],
                sheet: &GUARDED,
                answer: depths(0, 0, 1),
            },
            Case {
                name: "CMP r0, #0x01 writes nothing",
                words: &[0xB002, 0xB004, 0xBD00, 0xB003, 0xA001, 0xBB00],
                sheet: &GUARDED,
                answer: depths(0, 0, 1),
            },
        ],
    );
}

#[test]
fn walks_and_depths(rt: HostRuntime) {
    compare(
        &rt,
        &[
            Case {
                name: "STI",
                words: &[0xB002, 0xBB00, 0xBD00, 0xB003],
                sheet: &ALONE,
                answer: depths(0, 0, 1),
            },
            Case {
                name: "behind a call that never returns nothing is reached",
                words: &[0xB903, 0xBE00, 0, 0xB003],
                sheet: &ALONE,
                answer: depths(1, 0, 1),
            },
            Case {
                name: "without STI the handler is not walked",
                words: &[0xB002, 0xBE00, 0xB002],
                sheet: &ALONE,
                answer: depths(0, 0, 0),
            },
            Case {
                name: "a call in the handler",
                words: &[0xB002, 0xB004, 0xBD00, 0xB003, 0xB906, 0xBB00, 0xBA00],
                sheet: &ALONE,
                answer: depths(0, 1, 2),
            },
            Case {
                name: "calls without end",
                words: &[0xB900],
                sheet: &ALONE,
                answer: Err(Refusal::Depth),
            },
            Case {
                name: "5 comes before 11",
                words: &[0xB104, 0xB900, 0, 0, 0xBE00],
                sheet: &ALONE,
                answer: Err(Refusal::MainWord { at: 4 }),
            },
        ],
    );
}

#[test]
fn nested_calls(rt: HostRuntime) {
    assert_eq!(rt;
        vet(&nested(STI, 15), &ALONE),
        depths(15, 0, 16),
        "15 calls and an interrupt"
    );
    assert_eq!(rt;
        vet(&nested(STI, 16), &ALONE),
        Err(Refusal::Depth),
        "16 calls and an interrupt"
    );
    assert_eq!(rt;
        vet(&nested(ADD, 16), &ALONE),
        depths(16, 0, 16),
        "16 calls alone"
    );
    assert_eq!(rt;
        vet(&nested(ADD, 17), &ALONE),
        Err(Refusal::Depth),
        "17 calls alone"
    );
}
