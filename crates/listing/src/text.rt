// The lines of a whole image.
ghost use Rattle.std.specs.Prelude.{◌≡◌, ◌≤◌, ◌≢◌, ◌++◌, length, Ok, Err, string_bytes, IfOk, OnOk};
ghost use Rattle.refusal.specs.declared.refusal.Refusal.TheVariants.{ImageSize};
ghost use Rattle.listing.specs.declared.text.ListingError.TheVariants.{Refused, Memory};
ghost use Rattle.listing.specs.Lines.{lines_from, LastRun, Lists};

use crate::line::{Line, Run};
use refusal::Refusal;
use std::alloc::{AllocError, Global};

// Why there is no listing: the image is refused, or memory is wanting.
#[derive(Clone, Copy, Debug)]
pub enum ListingError {
    Refused(Refusal),
    Memory,
}

impl From<AllocError> for ListingError {
    ghost from_gives = { λ _ e. e ≡ Memory };

    fn from(_error: AllocError) -> ListingError {
        ListingError::Memory
    }
}

// The first address of the run of equal words at the end.
fn run_start(image: &[u16; 256]) -> usize
    ensures { LastRun image.now result }
{
    let last = image[255];
    image
        .iter()
        .rposition(|word| *word != last)
        .map_or(0, |at| at + 1)
}

// Adds a line for each of the words, which stand from address 0 on.
#[tactic(auto, using(crate::proofs::Steps::one_more, crate::proofs::Steps::all_done))]
fn write_lines(text: &mut String, words: &[u16]) -> Result<(), AllocError>
    requires { length words.now ≤ 256 }
    ensures { OnOk result (string_bytes text.new ≡ string_bytes text.old ++ lines_from 0 words.now) }
{
    for (at, word) in words.iter().enumerate() {
        let line = Line {
            at: at as u8,
            word: *word,
        };
        writeln!(text, "{line}")?;
    }
    Ok(())
}

// The text that lists the words of an image.
fn text_of(heap: Global, image: &[u16; 256]) -> Result<String, AllocError>
    ensures { IfOk result (λ text. Lists image.now (string_bytes text)) }
{
    let start = run_start(image);
    let mut text = String::new(heap);
    write_lines(&mut text, &image[..start])?;
    let run = Run {
        start: start as u8,
        word: image[start],
    };
    writeln!(text, "{run}")?;
    Ok(text)
}

// The listing of an image of 256 words.
pub fn listing(heap: Global, image: &[u16]) -> Result<String, ListingError>
    ensures { elim result [
      | Ok text ↦ Lists image.now (string_bytes text)
      | Err e ↦ elim e [ Refused reason ↦ (length image.now ≢ 256) × (reason ≡ ImageSize) | Memory ↦ length image.now ≡ 256 ]
    ] }
{
    let image = image
        .as_array()
        .ok_or(ListingError::Refused(Refusal::ImageSize))?;
    Ok(text_of(heap, image)?)
}
