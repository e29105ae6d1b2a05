// Bytes and words as text, and digits as numbers.
use hexadecimal::{HexByte, HexWord, value};
use std::test::Fail;

#[test]
fn bytes_as_text(rt: HostRuntime) -> Result<(), Fail> {
    let table = [
        (0x00, "00"),
        (0x09, "09"),
        (0x0A, "0A"),
        (0x1F, "1F"),
        (0xFF, "FF"),
    ];
    for (byte, text) in table {
        assert_eq!(rt; HexByte(byte).to_string(rt.alloc())?.as_str(), text);
    }
    Ok(())
}

#[test]
fn words_as_text(rt: HostRuntime) -> Result<(), Fail> {
    let table = [
        (0x0000, "0000"),
        (0x000A, "000A"),
        (0x1F09, "1F09"),
        (0xB0C4, "B0C4"),
        (0xFFFF, "FFFF"),
    ];
    for (word, text) in table {
        assert_eq!(rt; HexWord(word).to_string(rt.alloc())?.as_str(), text);
    }
    Ok(())
}

#[test]
fn digit_values(rt: HostRuntime) {
    let table = [
        (b'0', Some(0)),
        (b'9', Some(9)),
        (b'A', Some(10)),
        (b'F', Some(15)),
        (b'a', Some(10)),
        (b'f', Some(15)),
        (b'/', None),
        (b':', None),
        (b'@', None),
        (b'G', None),
        (b'`', None),
        (b'g', None),
    ];
    for (byte, number) in table {
        assert_eq!(rt; value(byte), number);
    }
}
