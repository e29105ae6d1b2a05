// The verdict on an image and its sheet.
ghost use Rattle.vetting.specs.Judging.{read_program, ProgramAnswered};
ghost use Rattle.vetting.specs.Verdicts.{Answered, NoOther};

use crate::depths::Depths;
use crate::part::Part;
use crate::rulebooks::{HandlerRules, MainRules};
use crate::sheet::Sheet;
use refusal::Refusal;

// Vets an image with its sheet: main's rules, the handler's if its walk counts, then the depth.
#[tactic(auto, using(crate::proofs::Vetting::answered_alone, crate::proofs::Vetting::answered_together))]
fn vet_parts(image: &[u16; 256], sheet: Sheet) -> Result<Depths, Refusal>
    ensures { ProgramAnswered (read_program image.now sheet) result }
{
    let main = Part::main(image);
    main.judge(&MainRules { sheet })?;
    if !main.enables_interrupts() {
        return Depths::alone(main.depth());
    }
    let handler = Part::handler(image);
    handler.judge(&HandlerRules { sheet })?;
    Depths::together(main.depth(), handler.depth())
}

// Vets an image with its sheet. The refusals are tried in the order of their numbers, the sheet's words one by one.
#[tactic(auto, using(crate::proofs::Unique::answered, crate::proofs::Unique::no_other))]
pub fn vet(image: &[u16], sheet: &[u32]) -> Result<Depths, Refusal>
    ensures answer { Answered image.now sheet.now result }
    ensures only { NoOther image.now sheet.now result }
{
    let image = image.as_array().ok_or(Refusal::ImageSize)?;
    let sheet = Sheet::read(sheet)?;
    vet_parts(image, sheet)
}
