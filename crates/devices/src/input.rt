ghost use Rattle.devices.specs.Input.{input, new_input};
ghost use Rattle.std.specs.Prelude.{◌≡◌};
ghost use Rattle.std.proofs.Common.{rules};

use bus::Device;

// A register that takes over the outside lines at each clock.
#[derive(Drop)]
pub struct Input {
    lines: u8,
    register: u8,
}

impl Input {
    // Its lines and its register 0.
    pub fn new() -> Input
        ensures { result ≡ new_input }
    {
        Input {
            lines: 0,
            register: 0,
        }
    }
}

impl Device for Input {
    const N: u32 = 0;

    ghost N = { 0 };

    ghost meaning = { input };

    ghost range = { Prim.search rules };

    ghost laws = { Prim.search rules };

    fn read(&mut self, _at: u8) -> u8 {
        self.register
    }

    fn write(&mut self, _at: u8, _byte: u8) {}

    fn clock(&mut self) {
        self.register = self.lines;
    }

    fn drive(&mut self, _at: u8, byte: u8) {
        self.lines = byte;
    }

    fn requests(&self) -> bool {
        false
    }

    fn keeps(&self, _at: u8) -> bool {
        false
    }
}
