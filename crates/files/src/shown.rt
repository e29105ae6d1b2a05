// Bytes of a file as a message shows them.
ghost use Rattle.std.specs.Prelude.{◌≡◌, Some};
ghost use Rattle.files.specs.Wording.{shown_byte, dots, shown_token};

use hexadecimal::HexByte;
use std::fmt;

// How many bytes of a token a message shows.
const SHOWN: usize = 24;

// A byte: itself where it can be printed, else its number.
#[derive(Clone, Copy)]
struct ShownByte(u8);

impl fmt::Display for ShownByte {
    ghost output = { λ b. Some (shown_byte b.0) };

    fn fmt<W: fmt::Write>(&self, f: &mut fmt::Formatter<W>) -> fmt::Result {
        match self.0 {
            byte @ b' '..=b'~' => write!(f, "{}", byte as char),
            byte => write!(f, "\\x{}", HexByte(byte)),
        }
    }
}

// What stands behind the bytes of a token that are shown.
fn dots(token: &[u8]) -> &'static str
    ensures { result.now ≡ dots token.now }
{
    if token.len() > SHOWN { "..." } else { "" }
}

// A token: its first bytes, and dots where there are more.
#[derive(Clone, Copy)]
pub struct Shown<'a>(pub &'a [u8]);

impl fmt::Display for Shown<'_> {
    ghost output = { λ t. Some (shown_token t.0.now) };

    fn fmt<W: fmt::Write>(&self, f: &mut fmt::Formatter<W>) -> fmt::Result {
        for byte in self.0.iter().take(SHOWN) {
            write!(f, "{}", ShownByte(*byte))?;
        }
        f.write_str(dots(self.0))
    }
}
