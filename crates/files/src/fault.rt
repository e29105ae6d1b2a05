// Why the bytes of a file are refused.
ghost use Rattle.std.specs.Prelude.{◌≡◌};
ghost use Rattle.files.specs.declared.fault.Fault.TheVariants.{Memory};

use std::alloc::{AllocError, AllocFailed};

// How many hexadecimal digits a word has.
#[derive(Clone, Copy, PartialEq, Eq, Debug)]
pub enum Digits {
    Four = 4,
    Eight = 8,
}

// `line` counts from 1, `found` shows the token that is no word, and `bytes` is the file's length.
#[derive(Debug, Drop)]
pub enum Fault {
    Malformed {
        line: usize,
        digits: Digits,
        found: String,
    },
    HalfWord {
        bytes: usize,
    },
    Memory,
}

impl From<AllocError> for Fault {
    ghost from_gives = { λ _ r. r ≡ Memory };

    fn from(_error: AllocError) -> Fault {
        Fault::Memory
    }
}

impl<T: Drop> From<AllocFailed<T>> for Fault {
    ghost from_gives = { λ _ r. r ≡ Memory };

    fn from(_error: AllocFailed<T>) -> Fault {
        Fault::Memory
    }
}
