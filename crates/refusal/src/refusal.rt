// A refusal, with the place where it arose where there is one: `index` counts the sheet's words, `at` is an address of the image.
#[derive(Clone, Copy, PartialEq, Eq, Debug)]
pub enum Refusal {
    ImageSize,
    SheetEnd,
    SheetWord { index: u8 },
    SheetRange { index: u8 },
    MainWord { at: u8 },
    MainReturn { at: u8 },
    MainRegister { at: u8 },
    HandlerWord { at: u8 },
    HandlerReturn { at: u8 },
    HandlerWrite { at: u8 },
    Depth,
    Register,
    Port,
    Budget,
    BurnBuffer,
}
