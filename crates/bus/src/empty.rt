ghost use Rattle.bus.specs.Empty.{empty};
ghost use Rattle.std.proofs.Common.{rules};

use crate::Bus;

// The bus without devices.
#[derive(Drop)]
pub struct Empty;

impl Bus for Empty {
    ghost meaning = { empty };

    ghost laws = { Prim.search rules };

    fn read(&mut self, _at: u8) -> u8 {
        0
    }

    fn write(&mut self, _at: u8, _byte: u8) {}

    fn clock(&mut self) {}

    fn drive(&mut self, _at: u8, _byte: u8) {}

    fn requests(&self) -> bool {
        false
    }

    fn keeps(&self, _at: u8) -> bool {
        false
    }
}
