// The fifteen refusals.
use refusal::Refusal::*;
use std::test::Fail;

#[test]
fn numbers_names_and_places(rt: HostRuntime) {
    let table = [
        (ImageSize, 1, "image size", 0),
        (SheetEnd, 2, "sheet end", 0),
        (SheetWord { index: 2 }, 3, "sheet word", 2),
        (SheetRange { index: 63 }, 4, "sheet range", 63),
        (MainWord { at: 0x0F }, 5, "main word", 0x0F),
        (MainReturn { at: 0xFF }, 6, "main return", 0xFF),
        (MainRegister { at: 0xA0 }, 7, "main register", 0xA0),
        (HandlerWord { at: 0x3F }, 8, "handler word", 0x3F),
        (HandlerReturn { at: 0x01 }, 9, "handler return", 0x01),
        (HandlerWrite { at: 0x31 }, 10, "handler write", 0x31),
        (Depth, 11, "depth", 0),
        (Register, 12, "register", 0),
        (Port, 13, "port", 0),
        (Budget, 14, "budget", 0),
        (BurnBuffer, 15, "burn buffer", 0),
    ];
    for (refusal, number, name, place) in table {
        assert_eq!(rt; refusal.number(), number);
        assert_eq!(rt; refusal.name(), name);
        assert_eq!(rt; refusal.place(), place);
    }
}

#[test]
fn texts(rt: HostRuntime) -> Result<(), Fail> {
    let table = [
        (ImageSize, "refused 1 image size"),
        (SheetEnd, "refused 2 sheet end"),
        (SheetWord { index: 2 }, "refused 3 sheet word at 2"),
        (SheetRange { index: 63 }, "refused 4 sheet range at 63"),
        (MainWord { at: 15 }, "refused 5 main word at 0x0F"),
        (MainReturn { at: 255 }, "refused 6 main return at 0xFF"),
        (MainRegister { at: 160 }, "refused 7 main register at 0xA0"),
        (HandlerWord { at: 63 }, "refused 8 handler word at 0x3F"),
        (HandlerReturn { at: 1 }, "refused 9 handler return at 0x01"),
        (HandlerWrite { at: 49 }, "refused 10 handler write at 0x31"),
        (Depth, "refused 11 depth"),
        (Register, "refused 12 register"),
        (Port, "refused 13 port"),
        (Budget, "refused 14 budget"),
        (BurnBuffer, "refused 15 burn buffer"),
    ];
    for (refusal, text) in table {
        assert_eq!(rt; refusal.to_string(rt.alloc())?.as_str(), text);
    }
    Ok(())
}

#[test]
fn addresses(rt: HostRuntime) {
    assert_eq!(rt; MainWord { at: 0x00 }.address(), Some(0x00));
    assert_eq!(rt; HandlerWrite { at: 0x31 }.address(), Some(0x31));
    assert_eq!(rt; SheetRange { index: 4 }.address(), None);
    assert_eq!(rt; Depth.address(), None);
}
