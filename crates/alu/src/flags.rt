// Z, C, N and V tell of a result. IE: interrupts are enabled. IF, here `handling`: an interrupt is being served.
#[derive(Clone, Copy, Default, PartialEq, Eq, Debug)]
pub struct Flags {
    pub z: bool,
    pub c: bool,
    pub n: bool,
    pub v: bool,
    pub ie: bool,
    pub handling: bool,
}
