// Where a refusal arose.
ghost use Rattle.std.specs.Prelude.{Some};
ghost use Rattle.refusal.specs.Refusals.{text_of_place};

use hexadecimal::HexByte;
use std::fmt;

// A word of the sheet by its index, or a word of the image by its address.
#[derive(Clone, Copy)]
pub(crate) enum Place {
    Sheet(u8),
    Image(u8),
}

impl fmt::Display for Place {
    ghost output = { λ p. Some (text_of_place p) };

    fn fmt<W: fmt::Write>(&self, f: &mut fmt::Formatter<W>) -> fmt::Result {
        match *self {
            Place::Sheet(index) => write!(f, "{index}"),
            Place::Image(at) => write!(f, "0x{}", HexByte(at)),
        }
    }
}
