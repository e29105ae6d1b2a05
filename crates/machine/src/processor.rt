// The processor.
ghost use Rattle.std.specs.Prelude.{◌≡◌};
ghost use Rattle.machine.specs.Processors.{fresh};

use crate::pointer::StackPointer;
use alu::Flags;

// A stack word: a program counter and the six flags.
#[derive(Clone, Copy, Default)]
pub struct Saved {
    pub pc: u8,
    pub flags: Flags,
}

// Its program counter, sixteen registers, six flags, and a stack of sixteen places with its pointer.
#[derive(Clone, Copy)]
pub struct Processor {
    pub pc: u8,
    pub registers: [u8; 16],
    pub flags: Flags,
    pub stack: [Saved; 16],
    pub sp: StackPointer,
}

impl Processor {
    // All 0.
    pub fn new() -> Self
        ensures { result ≡ fresh }
    {
        Processor {
            pc: 0,
            registers: [0; 16],
            flags: Flags::default(),
            stack: [Saved::default(); 16],
            sp: StackPointer::at(0),
        }
    }
}
