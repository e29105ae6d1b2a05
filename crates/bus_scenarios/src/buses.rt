// Devices, layers of them, and the bus of a desk.
use bus::{Bus, Empty, Layer};
use devices::{Buttons, Input, Memory, Output, desk};

// What is done to a bus.
#[derive(Drop)]
enum Event {
    Write(u8, u8),
    Clock,
    Drive(u8, u8),
}

// Does an event to a bus.
fn apply<B: Bus>(bus: &mut B, event: Event) {
    match event {
        Event::Write(at, byte) => bus.write(at, byte),
        Event::Clock => bus.clock(),
        Event::Drive(at, byte) => bus.drive(at, byte),
    }
}

// The byte at an address, whether it is kept, and whether the bus requests.
fn shown<B: Bus>(bus: &mut B, at: u8) -> (u8, bool, bool) {
    (bus.read(at), bus.keeps(at), bus.requests())
}

#[test]
fn a_memory_holds_what_is_written(rt: HostRuntime) {
    let mut bus = Layer::new(0x00, Memory::new([7; 128]), Empty);
    let table = [
        (Event::Write(0x7F, 9), 0x7F, (9, true, false)),
        (Event::Write(0x80, 9), 0x7E, (7, true, false)),
        (Event::Drive(0x00, 9), 0x00, (7, true, false)),
        (Event::Clock, 0x7F, (9, true, false)),
        (Event::Clock, 0x80, (0, false, false)),
        (Event::Clock, 0xFF, (0, false, false)),
    ];
    for (event, at, expected) in table {
        apply(&mut bus, event);
        assert_eq!(rt; shown(&mut bus, at), expected);
    }
}

#[test]
fn an_output_holds_its_byte(rt: HostRuntime) {
    let mut bus = Layer::new(0x80, Output::new(), Empty);
    let table = [
        (Event::Clock, 0x00),
        (Event::Write(0x80, 0x5A), 0x5A),
        (Event::Drive(0x80, 0xFF), 0x5A),
        (Event::Write(0x81, 0xFF), 0x5A),
        (Event::Clock, 0x5A),
        (Event::Write(0x80, 0x00), 0x00),
    ];
    for (event, byte) in table {
        apply(&mut bus, event);
        assert_eq!(rt; shown(&mut bus, 0x80), (byte, true, false));
    }
}

#[test]
fn an_input_follows_its_lines_at_a_clock(rt: HostRuntime) {
    let mut bus = Layer::new(0x81, Input::new(), Empty);
    let table = [
        (Event::Clock, 0x00),
        (Event::Drive(0x81, 0x0F), 0x00),
        (Event::Write(0x81, 0xFF), 0x00),
        (Event::Clock, 0x0F),
        (Event::Write(0x81, 0xFF), 0x0F),
        (Event::Drive(0x80, 0xFF), 0x0F),
        (Event::Clock, 0x0F),
        (Event::Drive(0x81, 0x00), 0x0F),
        (Event::Clock, 0x00),
    ];
    for (event, byte) in table {
        apply(&mut bus, event);
        assert_eq!(rt; shown(&mut bus, 0x81), (byte, false, false));
    }
}

// The base has its low bits set: the buttons stand at 0x84 to 0x87. Each row has the four bytes there and whether
// the bus requests after the event.
#[test]
fn buttons_request_until_their_flags_are_cleared(rt: HostRuntime) {
    let mut bus = Layer::new(0x86, Buttons::new(), Empty);
    let table = [
        (Event::Clock, [0x00, 0x00, 0x00, 0x00], false),
        (Event::Drive(0x84, 0x05), [0x00, 0x00, 0x00, 0x00], false),
        (Event::Clock, [0x05, 0x00, 0x05, 0x00], false),
        (Event::Clock, [0x05, 0x00, 0x05, 0x00], false),
        (Event::Write(0x85, 0xF2), [0x05, 0xF2, 0x05, 0x00], false),
        (Event::Write(0x85, 0xF1), [0x05, 0xF1, 0x05, 0x00], true),
        (Event::Write(0x86, 0x04), [0x05, 0xF1, 0x01, 0x00], true),
        (Event::Write(0x86, 0xFE), [0x05, 0xF1, 0x01, 0x00], true),
        (Event::Write(0x86, 0x01), [0x05, 0xF1, 0x00, 0x00], false),
        (Event::Write(0x84, 0xFF), [0x05, 0xF1, 0x00, 0x00], false),
        (Event::Write(0x87, 0xFF), [0x05, 0xF1, 0x00, 0x00], false),
        (Event::Drive(0x85, 0x04), [0x05, 0xF1, 0x00, 0x00], false),
        (Event::Clock, [0x04, 0xF1, 0x01, 0x00], true),
        (Event::Drive(0x86, 0x84), [0x04, 0xF1, 0x01, 0x00], true),
        (Event::Clock, [0x84, 0xF1, 0x81, 0x00], true),
        (Event::Drive(0x87, 0x00), [0x84, 0xF1, 0x81, 0x00], true),
        (Event::Clock, [0x00, 0xF1, 0x85, 0x00], true),
        (Event::Write(0x85, 0x00), [0x00, 0x00, 0x85, 0x00], false),
        (Event::Write(0x86, 0xFF), [0x00, 0x00, 0x00, 0x00], false),
    ];
    for (event, bytes, requests) in table {
        apply(&mut bus, event);
        assert_eq!(rt; four_bytes(&mut bus, 0x84), bytes);
        assert_eq!(rt; bus.requests(), requests);
    }
}

// The bytes at an address, a multiple of four, and at the three after it.
fn four_bytes<B: Bus>(bus: &mut B, from: u8) -> [u8; 4] {
    [
        bus.read(from),
        bus.read(from | 1),
        bus.read(from | 2),
        bus.read(from | 3),
    ]
}

// First an output hides the enable bits of the buttons, and the press does not request, since the write of the bits has not
// reached them. Then it hides the last offset only, and the drive there does not reach the lines.
#[test]
fn the_upper_device_answers_alone(rt: HostRuntime) {
    for (hidden, expected) in [(0x85, (0x01, true, false)), (0x87, (0x00, true, true))] {
        let mut bus = Layer::new(
            hidden,
            Output::new(),
            Layer::new(0x84, Buttons::new(), Empty),
        );
        bus.write(0x85, 0x01);
        bus.drive(0x84, 0x01);
        bus.drive(hidden, 0x02);
        bus.clock();
        assert_eq!(rt; shown(&mut bus, hidden), expected);
        assert_eq!(rt; four_bytes(&mut bus, 0x84), [0x01, 0x01, 0x01, 0x00]);
    }
}

#[test]
fn the_desk_has_each_device_at_its_address(rt: HostRuntime) {
    let mut bus = desk([7; 128]);
    for at in 0..=u8::MAX {
        assert_eq!(rt; bus.keeps(at), at <= 0x80 || at == 0x85);
    }
    let table = [
        (Event::Write(0x05, 0x15), 0x05, (0x15, true, false)),
        (Event::Write(0x80, 0x55), 0x80, (0x55, true, false)),
        (Event::Drive(0x81, 0x09), 0x81, (0x00, false, false)),
        (Event::Drive(0x84, 0x04), 0x84, (0x00, false, false)),
        (Event::Clock, 0x81, (0x09, false, false)),
        (Event::Write(0x85, 0x04), 0x84, (0x04, false, true)),
        (Event::Write(0x90, 0xFF), 0x90, (0x00, false, true)),
        (Event::Clock, 0x86, (0x04, false, true)),
        (Event::Write(0x86, 0x04), 0x85, (0x04, true, false)),
        (Event::Clock, 0x7F, (0x07, true, false)),
    ];
    for (event, at, expected) in table {
        apply(&mut bus, event);
        assert_eq!(rt; shown(&mut bus, at), expected);
    }
}
