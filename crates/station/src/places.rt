// What can be looked at and what can be changed by hand in a halted station.
use machine::Saved;

// The six flags.
#[derive(Clone, Copy)]
pub enum FlagName {
    Z,
    C,
    N,
    V,
    Ie,
    If,
}

// What can be peeked at: a register, a data address, the program counter, a flag, or the word that was pushed last.
#[derive(Clone, Copy)]
pub enum Place {
    Register(u8),
    Cell(u8),
    Pc,
    Flag(FlagName),
    Top,
}

// What a peek answers.
#[derive(Clone, Copy)]
pub enum Peeked {
    Byte(u8),
    Flag(bool),
    Word(Saved),
}

// The flags that tell of results: those that can be poked.
#[derive(Clone, Copy)]
pub enum ResultFlag {
    Z,
    C,
    N,
    V,
}

// What can be poked, with its new value.
#[derive(Clone, Copy)]
pub enum Poke {
    Register { number: u8, byte: u8 },
    Cell { at: u8, byte: u8 },
    Pc { address: u8 },
    Flag { flag: ResultFlag, set: bool },
}
