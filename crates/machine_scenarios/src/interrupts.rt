// Presses of the first button that interrupt a program, on the desk's bus.
use crate::station::{Row, Station, follow};

// JMP 0x02 · JMP 0x05 · STI · CMP r0, #0x00 · JMP 0x03, and at 5 MOV r8, #0xFF · MOV 0x86, r8 · RTI, which clears the flags.
// The press falls between CMP, which sets Z, and JMP.
#[test]
fn a_press_between_two_instructions(rt: HostRuntime) {
    let words = [
        0xB002, 0xB005, 0xBD00, 0xA000, 0xB003, 0xC8FF, 0x9886, 0xBB00,
    ];
    follow(
        &rt,
        &mut Station::new(0, &words),
        &[
            Row::new(0, 2, 0, ""),
            Row::new(2, 3, 0, "E"),
            Row::new(3, 4, 0, "ZE"),
            Row::new(4, 1, 1, "ZI").pressed().interrupted(),
            Row::new(1, 5, 1, "ZI").in_handler(),
            Row::new(5, 6, 1, "ZI").in_handler(),
            Row::new(6, 7, 1, "ZI").in_handler(),
            Row::new(7, 3, 0, "ZE").in_handler(),
            Row::new(3, 4, 0, "ZE"),
        ],
    );
}

// A handler of RTI alone clears no flag: the request is still there, so the next acceptance comes in the RTI's own step.
#[test]
fn the_next_acceptance_follows_rti_at_once(rt: HostRuntime) {
    follow(
        &rt,
        &mut Station::new(0, &[0xBD00, 0xBB00]),
        &[
            Row::new(0, 1, 1, "I").pressed().interrupted(),
            Row::new(1, 1, 1, "I").in_handler().interrupted(),
            Row::new(1, 1, 1, "I").in_handler().interrupted(),
        ],
    );
}

// STI, then a press while CLI runs: it is kept out. While ADD r0, #0x00 runs it is let in.
#[test]
fn cli_right_before_a_request(rt: HostRuntime) {
    follow(
        &rt,
        &mut Station::new(0, &[0xBD00, 0xBC00]),
        &[
            Row::new(0, 1, 0, "E"),
            Row::new(1, 2, 0, "").pressed(),
            Row::new(2, 3, 0, "Z"),
        ],
    );
    follow(
        &rt,
        &mut Station::new(0, &[0xBD00, 0x0000]),
        &[
            Row::new(0, 1, 0, "E"),
            Row::new(1, 1, 1, "ZI").pressed().interrupted(),
        ],
    );
}

// Without its enable bit a press does not interrupt, though its flag is set.
#[test]
fn a_press_that_is_not_enabled(rt: HostRuntime) {
    let mut station = Station::new(0, &[0xBD00]);
    station.write(0x85, 0x02);
    follow(
        &rt,
        &mut station,
        &[Row::new(0, 1, 0, "E").pressed(), Row::new(1, 2, 0, "ZE")],
    );
    assert_eq!(rt; station.read(0x86), 0x01);
}
