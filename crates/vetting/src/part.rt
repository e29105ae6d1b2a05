// The parts of a program, main and the handler, each reached from its own start.
ghost use Rattle.std.specs.Prelude.{◌≡◌, ℕ, slice_index_or};
ghost use Rattle.isa.specs.Images.{instruction_in};
ghost use Rattle.walk.specs.Walk.{graph};
ghost use Rattle.vetting.specs.Programs.{flow_of};
ghost use Rattle.vetting.specs.Verdicts.{reset, vector};
ghost use Rattle.vetting.specs.Parts.{leads_of, PartOf, FoundBy, Found, enabling, Tells, Judged};

use crate::depths::STACK_SIZE;
use crate::rulebooks::Rulebook;
use crate::rules::{Breach, Rule};
use crate::words::flow_of;
use isa::{Instruction, decode, instruction_at};
use walk::{Flow, Reach, walk};

// Where main starts.
const RESET: u8 = 0;

// Where the handler starts.
const VECTOR: u8 = 1;

// How each word of an image leads on.
fn flows_of(image: &[u16; 256]) -> [Flow; 256]
    ensures { graph result ≡ leads_of image.now }
{
    image.map(|word| flow_of(decode(word)))
}

// A part of an image: what the walk from a start reaches.
#[derive(Clone, Copy)]
pub struct Part<'a> {
    image: &'a [u16; 256],
    reach: Reach,
}

impl<'a> Part<'a> {
    // Walks through an image from a start.
    fn walked(image: &'a [u16; 256], start: u8) -> Part<'a>
        ensures { PartOf image.now start result }
    {
        Part {
            image,
            reach: walk(&flows_of(image), start, STACK_SIZE),
        }
    }

    // Main's part of an image.
    pub fn main(image: &'a [u16; 256]) -> Part<'a>
        ensures { PartOf image.now reset result }
    {
        Part::walked(image, RESET)
    }

    // The handler's part of an image.
    pub fn handler(image: &'a [u16; 256]) -> Part<'a>
        ensures { PartOf image.now vector result }
    {
        Part::walked(image, VECTOR)
    }

    // The depth of its calls, unless it passes the stack.
    pub fn depth(&self) -> Option<u8>
        ensures { result ≡ self.now.reach.depth }
    {
        self.reach.depth
    }

    // An address that is reached with a word and a list that pass a test, if there is one.
    fn find<F: Fn(Option<Instruction>, bool) -> bool>(&self, test: F) -> Option<u8>
        requires { F.IsAlwaysCallable test }
        ensures { FoundBy self.now (F.post test) result }
    {
        for at in 0..=255 {
            let instruction = instruction_at(self.image, at);
            if (self.reach.empty.contains(at) && test(instruction, false))
                || (self.reach.filled.contains(at) && test(instruction, true))
            {
                return Some(at);
            }
        }
        None
    }

    // Whether a word that enables interrupts is reached.
    pub fn enables_interrupts(&self) -> bool
        ensures { Tells self.now enabling result }
    {
        self.find(|instruction, _| instruction == Some(Instruction::EnableInterrupts))
            .is_some()
    }

    // An address at which a rule is broken, if there is one.
    fn place<R: Rulebook>(&self, book: &R, rule: Rule) -> Option<u8>
        ensures { Found self.now (R.breaks book.now rule) result }
    {
        self.find(|instruction, filled| book.is_broken(rule, instruction, filled))
    }

    // Judges the words by a rulebook: the error is the first rule by number that is broken, with an address.
    #[tactic(auto, using(crate::proofs::Judge::unbroken_more, crate::proofs::Judge::unbroken_before, crate::proofs::Judge::unbroken_all))]
    pub fn judge<R: Rulebook>(&self, book: &R) -> Result<(), Breach>
        ensures { Judged self.now (R.breaks book.now) result }
    {
        for &rule in &Rule::ALL {
            if let Some(at) = self.place(book, rule) {
                return Err(Breach { rule, at });
            }
        }
        Ok(())
    }
}
