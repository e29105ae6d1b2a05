// The stack: a push stores at SP and adds 1, a pop subtracts 1 and reads there, modulo 16.
ghost use Rattle.std.specs.Prelude.{◌≡◌};
ghost use Rattle.machine.specs.Processors.{pushed, popped, top};

use crate::processor::{Processor, Saved};

impl Processor {
    // The word pushed last.
    pub fn top(&self) -> Saved
        ensures { result ≡ top self.now }
    {
        self.stack[usize::from(self.sp.down().place())]
    }

    // Pushes an address with the six flags.
    pub(crate) fn push(&mut self, pc: u8)
        ensures { self.new ≡ pushed pc self.old }
    {
        self.stack[usize::from(self.sp.place())] = Saved {
            pc,
            flags: self.flags,
        };
        self.sp = self.sp.up();
    }

    // Pops the word pushed last.
    pub(crate) fn pop(&mut self) -> Saved
        ensures answer { result ≡ top self.old }
        ensures after { self.new ≡ popped self.old }
    {
        let word = self.top();
        self.sp = self.sp.down();
        word
    }
}
