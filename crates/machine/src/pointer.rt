// The stack pointer: one of sixteen places, which moves modulo 16.
ghost use Rattle.std.specs.Prelude.{◌≡◌, ◌<◌};

#[derive(Clone, Copy)]
pub struct StackPointer {
    place: u8,
    ghost small: { place < 16 },
}

impl StackPointer {
    ghost use Rattle.machine.specs.Processors.{pointer, raised, lowered};

    // The place that a number means, modulo 16.
    #[tactic(auto, unfolding(crate::specs::Processors::pointer))]
    pub fn at(number: u8) -> Self
        ensures { result ≡ pointer number }
    {
        StackPointer { place: number % 16 }
    }

    // Its place, 0 to 15.
    pub fn place(self) -> u8
        ensures value { result ≡ self.place }
        ensures bound { result < 16 }
    {
        self.place
    }

    // One place up, from 15 to 0.
    pub(crate) fn up(self) -> Self
        ensures { result ≡ raised self }
    {
        StackPointer::at(self.place.wrapping_add(1))
    }

    // One place down, from 0 to 15.
    pub(crate) fn down(self) -> Self
        ensures { result ≡ lowered self }
    {
        StackPointer::at(self.place.wrapping_add(15))
    }
}
