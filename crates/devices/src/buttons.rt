ghost use Rattle.devices.specs.Buttons.{FlagsTellChanges, OnesClearFlags, RequestsForEnabledFlags, buttons, new_buttons};
ghost use Rattle.std.specs.Prelude.{◌≡◌};
ghost use Rattle.std.proofs.Common.{rules};

use bus::Device;

// The offset of the register, that of the enable bits and that of the flags.
const REGISTER: u8 = 0;

const ENABLES: u8 = 1;

const FLAGS: u8 = 2;

// A register as an input's, with a flag for each bit that a clock changed and an enable bit for each flag.
#[derive(Drop)]
pub struct Buttons {
    lines: u8,
    register: u8,
    enables: u8,
    flags: u8,
}

impl Buttons {
    // All 0, with no line pressed. The clauses after the first say what the bits of every condition tell.
    #[tactic(auto, using(crate::proofs::Bits::flags_tell_changes, crate::proofs::Bits::ones_clear_flags, crate::proofs::Bits::requests_for_enabled_flags))]
    pub fn new() -> Buttons
        ensures made { result ≡ new_buttons }
        ensures changes { FlagsTellChanges }
        ensures clears { OnesClearFlags }
        ensures requests { RequestsForEnabledFlags }
    {
        Buttons {
            lines: 0,
            register: 0,
            enables: 0,
            flags: 0,
        }
    }
}

impl Device for Buttons {
    const N: u32 = 2;

    ghost N = { 2 };

    ghost meaning = { buttons };

    ghost range = { Prim.search rules };

    ghost laws = { Prim.search rules };

    fn read(&mut self, at: u8) -> u8 {
        match at {
            REGISTER => self.register,
            ENABLES => self.enables,
            FLAGS => self.flags,
            _ => 0,
        }
    }

    fn write(&mut self, at: u8, byte: u8) {
        match at {
            ENABLES => self.enables = byte,
            FLAGS => self.flags &= !byte,
            _ => {}
        }
    }

    fn clock(&mut self) {
        self.flags |= self.register ^ self.lines;
        self.register = self.lines;
    }

    fn drive(&mut self, _at: u8, byte: u8) {
        self.lines = byte;
    }

    fn requests(&self) -> bool {
        self.flags & self.enables != 0
    }

    fn keeps(&self, at: u8) -> bool {
        at == ENABLES
    }
}
