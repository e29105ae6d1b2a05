// The lines of a listing.
ghost use Rattle.std.specs.Prelude.{◌≡◌, Some};
ghost use Rattle.listing.specs.Lines.{word_text, contents_text, line_of, last_line};

use hexadecimal::{HexByte, HexWord};
use isa::decode;
use std::fmt;

// A word at its address, shown as `84 9005 MOV 0x05, r0`.
#[derive(Clone, Copy, PartialEq, Eq, Debug)]
pub struct Line {
    pub at: u8,
    pub word: u16,
}

// The words from an address to the last, which are equal: shown as `84..FF B000 JMP 0x00`, and the last word alone as its line.
#[derive(Clone, Copy)]
pub struct Run {
    pub start: u8,
    pub word: u16,
}

// A word and its instruction, shown as `9005 MOV 0x05, r0`.
#[derive(Clone, Copy)]
struct Contents(u16);

// The instruction of a word, or `?` where the word is undefined.
#[derive(Clone, Copy)]
struct WordText(u16);

impl fmt::Display for WordText {
    ghost output = { λ w. Some (word_text w.0) };

    fn fmt<W: fmt::Write>(&self, f: &mut fmt::Formatter<W>) -> fmt::Result {
        match decode(self.0) {
            Some(instruction) => write!(f, "{instruction}"),
            None => write!(f, "?"),
        }
    }
}

impl fmt::Display for Contents {
    ghost output = { λ c. Some (contents_text c.0) };

    fn fmt<W: fmt::Write>(&self, f: &mut fmt::Formatter<W>) -> fmt::Result {
        write!(f, "{} {}", HexWord(self.0), WordText(self.0))
    }
}

impl fmt::Display for Line {
    ghost output = { λ l. Some (line_of l.at l.word) };

    fn fmt<W: fmt::Write>(&self, f: &mut fmt::Formatter<W>) -> fmt::Result {
        write!(f, "{} {}", HexByte(self.at), Contents(self.word))
    }
}

impl fmt::Display for Run {
    ghost output = { λ r. Some (last_line r.start r.word) };

    fn fmt<W: fmt::Write>(&self, f: &mut fmt::Formatter<W>) -> fmt::Result {
        let start = HexByte(self.start);
        let contents = Contents(self.word);
        if self.start < 0xFF {
            write!(f, "{start}..FF {contents}")
        } else {
            write!(f, "{start} {contents}")
        }
    }
}
