ghost use Rattle.devices.specs.Output.{new_output, output};
ghost use Rattle.std.specs.Prelude.{◌≡◌};
ghost use Rattle.std.proofs.Common.{rules};

use bus::Device;

// One cell whose byte the outside sees.
#[derive(Drop)]
pub struct Output {
    byte: u8,
}

impl Output {
    // Its byte 0.
    pub fn new() -> Output
        ensures { result ≡ new_output }
    {
        Output { byte: 0 }
    }
}

impl Device for Output {
    const N: u32 = 0;

    ghost N = { 0 };

    ghost meaning = { output };

    ghost range = { Prim.search rules };

    ghost laws = { Prim.search rules };

    fn read(&mut self, _at: u8) -> u8 {
        self.byte
    }

    fn write(&mut self, _at: u8, byte: u8) {
        self.byte = byte;
    }

    fn clock(&mut self) {}

    fn drive(&mut self, _at: u8, _byte: u8) {}

    fn requests(&self) -> bool {
        false
    }

    fn keeps(&self, _at: u8) -> bool {
        true
    }
}
