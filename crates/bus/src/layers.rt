ghost use Rattle.std.specs.Prelude.{◌%◌, ◌<◌, ◌^◌, ◌≡◌, IfSome, Some, None, cond};
ghost use Rattle.bus.specs.Layers.{layer, over, selects};
ghost use Rattle.std.proofs.Common.{rules};

use crate::{Bus, Device};

// A device over a bus. It has the addresses that equal its base after the low N bits are dropped from both.
#[derive(Drop)]
pub struct Layer<D, B> {
    base: u8,
    device: D,
    below: B,
}

impl<D, B> Layer<D, B> {
    // The device at a base address over the bus.
    pub fn new(base: u8, device: D, below: B) -> Layer<D, B>
        ensures { result ≡ over base device below }
    {
        Layer {
            base,
            device,
            below,
        }
    }
}

impl<D: Device, B> Layer<D, B> {
    // The device's offset of an address, where the address is the device's.
    fn offset(&self, at: u8) -> Option<u8>
        ensures selected { result ≡ cond (selects D.N self.now.base at) (Some (at % 2 ^ D.N)) None }
        ensures within { IfSome result (λ o. o < 2 ^ D.N) }
    {
        if u16::from(at) >> D::N == u16::from(self.base) >> D::N {
            Some((u16::from(at) % (1 << D::N)) as u8)
        } else {
            None
        }
    }
}

impl<D: Device, B: Bus> Bus for Layer<D, B> {
    ghost meaning = { layer D.Device.N D.Device.meaning B.Bus.meaning };

    ghost laws = { Prim.search rules };

    fn read(&mut self, at: u8) -> u8 {
        match self.offset(at) {
            Some(offset) => self.device.read(offset),
            None => self.below.read(at),
        }
    }

    fn write(&mut self, at: u8, byte: u8) {
        match self.offset(at) {
            Some(offset) => self.device.write(offset, byte),
            None => self.below.write(at, byte),
        }
    }

    fn clock(&mut self) {
        self.device.clock();
        self.below.clock();
    }

    fn drive(&mut self, at: u8, byte: u8) {
        match self.offset(at) {
            Some(offset) => self.device.drive(offset, byte),
            None => self.below.drive(at, byte),
        }
    }

    fn requests(&self) -> bool {
        self.device.requests() || self.below.requests()
    }

    fn keeps(&self, at: u8) -> bool {
        match self.offset(at) {
            Some(offset) => self.device.keeps(offset),
            None => self.below.keeps(at),
        }
    }
}
