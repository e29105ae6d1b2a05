// Bytes and words as text.
ghost use Rattle.std.specs.Prelude.{Some};
ghost use Rattle.hexadecimal.specs.Hexadecimal.{two_digits, four_digits};

use crate::digits::digit;
use std::fmt;

// A byte, shown as two capital digits.
#[derive(Clone, Copy, PartialEq, Eq, Debug)]
pub struct HexByte(pub u8);

// A word, shown as four capital digits.
#[derive(Clone, Copy, PartialEq, Eq, Debug)]
pub struct HexWord(pub u16);

impl fmt::Display for HexByte {
    ghost output = { λ b. Some (two_digits b.0) };

    fn fmt<W: fmt::Write>(&self, f: &mut fmt::Formatter<W>) -> fmt::Result {
        write!(f, "{}{}", digit(self.0 / 0x10), digit(self.0))
    }
}

impl fmt::Display for HexWord {
    ghost output = { λ w. Some (four_digits w.0) };

    fn fmt<W: fmt::Write>(&self, f: &mut fmt::Formatter<W>) -> fmt::Result {
        let [high, low] = self.0.to_be_bytes();
        write!(f, "{}{}", HexByte(high), HexByte(low))
    }
}
