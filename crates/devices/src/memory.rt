ghost use Rattle.devices.specs.Memory.{memory, new_memory};
ghost use Rattle.std.specs.Prelude.{length, ◌≡◌};
ghost use Rattle.std.proofs.Common.{rules};

use bus::Device;

// 128 cells.
#[derive(Drop)]
pub struct Memory {
    cells: [u8; 128],
}

impl Memory {
    // The memory of the given cells.
    pub fn new(cells: [u8; 128]) -> Memory
        ensures made { result ≡ new_memory cells }
        ensures full { length result.cells ≡ 128 }
    {
        Memory { cells }
    }
}

impl Device for Memory {
    const N: u32 = 7;

    ghost N = { 7 };

    ghost meaning = { memory };

    ghost range = { Prim.search rules };

    ghost laws = { Prim.search rules };

    fn read(&mut self, at: u8) -> u8 {
        self.cells[usize::from(at)]
    }

    fn write(&mut self, at: u8, byte: u8) {
        self.cells[usize::from(at)] = byte;
    }

    fn clock(&mut self) {}

    fn drive(&mut self, _at: u8, _byte: u8) {}

    fn requests(&self) -> bool {
        false
    }

    fn keeps(&self, at: u8) -> bool {
        self.cells.get(usize::from(at)).is_some()
    }
}
