// A processor on the desk's bus with an image, as the tests use it.
use alu::Flags;
use bus::Bus;
use devices::{Desk, desk};
use machine::{Processor, StepRecord, step};
use std::process::Abort;

// The flags whose letters stand in a text: Z, C, N, V, E for IE and I for IF.
pub fn flags_of(letters: &str) -> Flags {
    let mut flags = Flags::default();
    for letter in letters.bytes() {
        match letter {
            b'Z' => flags.z = true,
            b'C' => flags.c = true,
            b'N' => flags.n = true,
            b'V' => flags.v = true,
            b'E' => flags.ie = true,
            _ => flags.handling = true,
        }
    }
    flags
}

// An image, and the processor that runs it on the desk's bus.
#[derive(Drop)]
pub struct Station {
    image: [u16; 256],
    pub processor: Processor,
    bus: Desk,
}

impl Station {
    // Some words from an address on, 0x0000 (ADD r0, #0x00) elsewhere; every memory cell 0x55; the first button enabled.
    pub fn new(start: usize, words: &[u16]) -> Station {
        let mut image = [0u16; 256];
        for (place, word) in image.iter_mut().skip(start).zip(words) {
            *place = *word;
        }
        let mut bus = desk([0x55; 128]);
        bus.write(0x85, 0x01);
        Station {
            image,
            processor: Processor::new(),
            bus,
        }
    }

    // The first button's line.
    pub fn press(&mut self) {
        self.bus.drive(0x84, 0x01);
    }

    // The byte at an address of the bus.
    pub fn read(&mut self, at: u8) -> u8 {
        self.bus.read(at)
    }

    // Writes a byte to an address of the bus.
    pub fn write(&mut self, at: u8, byte: u8) {
        self.bus.write(at, byte);
    }

    // One step of the processor.
    pub fn step(&mut self) -> StepRecord {
        step(&self.image, &mut self.processor, &mut self.bus)
    }
}

// A step of a course: whether the button is pressed before it, what its record says but for the access, and PC, SP and the
// flags after it.
#[derive(Clone, Copy)]
pub struct Row {
    pressed: bool,
    address: u8,
    handler: bool,
    interrupted: bool,
    pc: u8,
    sp: u8,
    flags: &'static str,
}

impl Row {
    // A step of the main program without a press and without an interrupt.
    pub fn new(address: u8, pc: u8, sp: u8, flags: &'static str) -> Row {
        Row {
            pressed: false,
            address,
            handler: false,
            interrupted: false,
            pc,
            sp,
            flags,
        }
    }

    // The same with a press before it.
    pub fn pressed(self) -> Row {
        Row {
            pressed: true,
            ..self
        }
    }

    // The same in the handler.
    pub fn in_handler(self) -> Row {
        Row {
            handler: true,
            ..self
        }
    }

    // The same with an interrupt accepted after it.
    pub fn interrupted(self) -> Row {
        Row {
            interrupted: true,
            ..self
        }
    }
}

// Runs a course and compares each step with its row.
pub fn follow(rt: &impl Abort, station: &mut Station, rows: &[Row]) {
    for row in rows {
        if row.pressed {
            station.press();
        }
        let record = station.step();
        assert_eq!(rt;
            (record.address, record.handler, record.interrupted),
            (row.address, row.handler, row.interrupted)
        );
        let processor = station.processor;
        assert_eq!(rt;
            (processor.pc, processor.sp.place(), processor.flags),
            (row.pc, row.sp, flags_of(row.flags))
        );
    }
}
