// What a step answers.

// A bus access: its address, and the byte that was read or written.
#[derive(Clone, Copy, PartialEq, Eq, Debug)]
pub enum Access {
    Read { at: u8, byte: u8 },
    Write { at: u8, byte: u8 },
}

// The word's address, whether it was the handler's (IF before it), its access if it made one, and whether an interrupt
// was accepted after it.
#[derive(Clone, Copy, PartialEq, Eq, Debug)]
pub struct StepRecord {
    pub address: u8,
    pub handler: bool,
    pub access: Option<Access>,
    pub interrupted: bool,
}
