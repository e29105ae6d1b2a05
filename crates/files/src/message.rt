// The text of a fault.
ghost use Rattle.std.specs.Prelude.{Some};
ghost use Rattle.files.specs.Wording.{digits_name, message};

use crate::fault::{Digits, Fault};
use std::fmt;

impl fmt::Display for Digits {
    ghost output = { λ d. Some (digits_name d) };

    fn fmt<W: fmt::Write>(&self, f: &mut fmt::Formatter<W>) -> fmt::Result {
        match self {
            Digits::Four => write!(f, "four"),
            Digits::Eight => write!(f, "eight"),
        }
    }
}

impl fmt::Display for Fault {
    ghost output = { λ x. Some (message x) };

    fn fmt<W: fmt::Write>(&self, f: &mut fmt::Formatter<W>) -> fmt::Result {
        match self {
            Fault::Malformed {
                line,
                digits,
                found,
            } => write!(
                f,
                "{line}: expected a word of {digits} hexadecimal digits, found '{found}'"
            ),
            Fault::HalfWord { bytes } => {
                write!(f, "expected whole words of two bytes, found {bytes} bytes")
            }
            Fault::Memory => write!(f, "out of memory"),
        }
    }
}
