// What good and damaged files give.
use files::{Fault, image_binary, image_text, sheet_text};
use std::alloc::{AllocError, Global};
use std::fmt;
use std::test::Fail;

// The words, or the message of the fault.
fn outcome<T: fmt::Debug + Drop>(
    heap: Global,
    res: Result<Vec<T>, Fault>,
) -> Result<String, AllocError> {
    match res {
        Ok(words) => format!(in heap; "{words:?}"),
        Err(fault) => format!(in heap; "{fault}"),
    }
}

#[test]
fn images_as_text(rt: HostRuntime) -> Result<(), Fail> {
    let heap = rt.alloc();
    let cases = [
        ("", "[]"),
        ("\n \t\r\n", "[]"),
        ("// only\n\t// comments", "[]"),
        ("0001 00ff\t00FF\r\nAbCd", "[1, 255, 255, 43981]"),
        (
            "000A// ten\n0002/// two\n//0003\n0004 // four",
            "[10, 2, 4]",
        ),
        (
            "00012",
            "1: expected a word of four hexadecimal digits, found '00012'",
        ),
        (
            "0001\n001 ",
            "2: expected a word of four hexadecimal digits, found '001'",
        ),
        (
            "0x12 12G4",
            "1: expected a word of four hexadecimal digits, found '0x12'",
        ),
        (
            "12G4// 0x12",
            "1: expected a word of four hexadecimal digits, found '12G4'",
        ),
        (
            "1\r\n",
            "1: expected a word of four hexadecimal digits, found '1'",
        ),
        (
            "0001 // 1\r\n\r\n0003 / 4",
            "3: expected a word of four hexadecimal digits, found '/'",
        ),
        (
            "0001/0002// 3",
            "1: expected a word of four hexadecimal digits, found '0001/0002'",
        ),
        (
            "0123456789abcdef 01234567",
            "1: expected a word of four hexadecimal digits, found '0123456789abcdef'",
        ),
        (
            "0123456789abcdef01234567",
            "1: expected a word of four hexadecimal digits, found '0123456789abcdef01234567'",
        ),
        (
            "0123456789abcdef012345678",
            "1: expected a word of four hexadecimal digits, found '0123456789abcdef01234567...'",
        ),
    ];
    for (text, expected) in cases {
        let said = outcome(heap, image_text(heap, text.as_bytes()))?;
        assert_eq!(rt; said.as_str(), expected);
    }
    let said = outcome(heap, image_text(heap, &[0x30, 0xFF, 0x7F, 0x7E, 0x00]))?;
    assert_eq!(rt;
        said.as_str(),
        "1: expected a word of four hexadecimal digits, found '0\\xFF\\x7F~\\x00'"
    );
    Ok(())
}

#[test]
fn sheets_as_text(rt: HostRuntime) -> Result<(), Fail> {
    let heap = rt.alloc();
    let cases = [
        ("0000000A\ndeadBEEF", "[10, 3735928559]"),
        ("// none", "[]"),
        (
            "0000000A 0001",
            "1: expected a word of eight hexadecimal digits, found '0001'",
        ),
        (
            "\n0000000AB",
            "2: expected a word of eight hexadecimal digits, found '0000000AB'",
        ),
    ];
    for (text, expected) in cases {
        let said = outcome(heap, sheet_text(heap, text.as_bytes()))?;
        assert_eq!(rt; said.as_str(), expected);
    }
    Ok(())
}

#[test]
fn images_as_binary(rt: HostRuntime) -> Result<(), Fail> {
    let heap = rt.alloc();
    let bytes = [0x12, 0x34, 0xFF, 0x00, 0x0A];
    let cases = [
        (0, "[]"),
        (2, "[4660]"),
        (4, "[4660, 65280]"),
        (1, "expected whole words of two bytes, found 1 bytes"),
        (5, "expected whole words of two bytes, found 5 bytes"),
    ];
    for (length, expected) in cases {
        let file = bytes.get(0..length).ok_or("too long")?;
        let said = outcome(heap, image_binary(heap, file))?;
        assert_eq!(rt; said.as_str(), expected);
    }
    Ok(())
}
