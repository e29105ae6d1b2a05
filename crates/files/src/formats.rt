// The formats of an image and a sheet.
ghost use Rattle.std.specs.Prelude.{◌≡◌, ◌^◌};
ghost use Rattle.hexadecimal.specs.Hexadecimal.{four_digits};
ghost use Rattle.files.specs.Formats.{eight_digits, line_of, big_endian, Joins, ReadBack};
ghost use Rattle.files.specs.Reading.{Reads};
ghost use Rattle.files.specs.Texts.{tokens};
ghost use Rattle.files.specs.Words.{word_of};
ghost use Rattle.files.specs.declared.fault.Digits.TheVariants.{Four, Eight};

use crate::fault::Fault;
use crate::reader::read;
use std::alloc::Global;

// An image as text: words of four hexadecimal digits between blanks, line ends and comments.
#[tactic(auto, using(crate::proofs::Written::image_back))]
pub fn image_text(heap: Global, text: &[u8]) -> Result<Vec<u16>, Fault>
    ensures reads { Reads (word_of Four) Four (tokens text.now) result }
    ensures back { ReadBack (2 ^ 16) (line_of four_digits) text.now result }
{
    read(heap, text)
}

// A sheet as text: words of eight hexadecimal digits between blanks, line ends and comments.
#[tactic(auto, using(crate::proofs::Written::sheet_back))]
pub fn sheet_text(heap: Global, text: &[u8]) -> Result<Vec<u32>, Fault>
    ensures reads { Reads (word_of Eight) Eight (tokens text.now) result }
    ensures back { ReadBack (2 ^ 32) (line_of eight_digits) text.now result }
{
    read(heap, text)
}

// The word of two bytes, the high one first.
fn word(pair: &[u8; 2]) -> u16
    ensures { big_endian result ≡ pair.now }
{
    u16::from_be_bytes(*pair)
}

// An image as binary: words of two bytes, high byte first.
pub fn image_binary(heap: Global, bytes: &[u8]) -> Result<Vec<u16>, Fault>
    ensures joins { Joins bytes.now result }
    ensures back { ReadBack (2 ^ 16) big_endian bytes.now result }
{
    let (pairs, rest) = bytes.as_chunks();
    if !rest.is_empty() {
        return Err(Fault::HalfWord { bytes: bytes.len() });
    }
    Ok(pairs.iter().map(word).collect(heap)?)
}
