// What an operation answers: a byte, and the flags after it.
ghost use Rattle.std.specs.Prelude.{◌≡◌};

use crate::flags::Flags;

#[derive(Clone, Copy)]
pub struct Outcome {
    pub value: u8,
    pub flags: Flags,
}

impl Outcome {
    ghost use Rattle.alu.specs.Results.{only_judged};

    // A result: Z and N tell of it, and the other flags are as given.
    pub(crate) fn judged(value: u8, flags: Flags) -> Outcome
        ensures { result ≡ only_judged value flags }
    {
        Outcome {
            value,
            flags: Flags {
                z: value == 0,
                n: value >= 0x80,
                ..flags
            },
        }
    }
}
