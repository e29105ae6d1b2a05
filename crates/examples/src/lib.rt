// The worked examples of words and images.
#![tactic(auto)]

ghost use Rattle.examples.specs.Worked.{WorkedExamples, with_first, lone_end, WorkedAnswer};
ghost use Rattle.vetting.specs.Verdicts.{Answered};

use refusal::Refusal;
use vetting::{Depths, vet};

// Vets 256 words, the first as given and the others JMP 0x00, with the end word alone as the sheet: three of these images
// are worked examples. The examples hold together of the definitions that all contracts cite.
#[tactic(auto, using(crate::proofs::Images::examples, crate::proofs::Images::worked))]
pub fn worked_examples(first: u16) -> Result<Depths, Refusal>
    ensures examples { WorkedExamples }
    ensures answer { Answered (with_first first) lone_end result }
    ensures images { WorkedAnswer first result }
{
    let mut image = [0xB000; 256];
    image[0] = first;
    let sheet = [0x8000_0000];
    vet(&image, &sheet)
}
