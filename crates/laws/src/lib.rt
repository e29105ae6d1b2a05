// What holds of all words and instructions, on the contracts of calls that use it.
#![tactic(auto)]

ghost use Rattle.std.specs.Prelude.{◌≡◌, IfOk, Some, None, string_bytes};
ghost use Rattle.isa.specs.Laws.{ReadBack, WrittenBack, DefinedWords};
ghost use Rattle.isa.specs.Words.{decoded};
ghost use Rattle.isa.specs.Assembly.{text_of, DifferentTexts};

use isa::{Instruction, decode, encode};
use std::alloc::{AllocError, Global};

// An instruction, encoded and decoded again: itself.
#[tactic(auto, using(isa::proofs::Back::read_back))]
pub fn reread(instruction: Instruction) -> Option<Instruction>
    ensures all { ReadBack }
    ensures same { result ≡ Some instruction }
{
    decode(encode(instruction))
}

// A word, decoded and encoded again: itself, or none where it is undefined.
#[tactic(auto, using(isa::proofs::Writing::written_back))]
pub fn rewritten(word: u16) -> Option<u16>
    ensures all { WrittenBack }
    ensures same { elim (decoded word) [ Some i ↦ result ≡ Some word | None ↦ result ≡ None ] }
{
    decode(word).map(|instruction| encode(instruction))
}

// How many words are defined.
pub fn defined_words() -> u16
    ensures count { DefinedWords }
    ensures answer { result ≡ 55108 }
{
    55_108
}

// The text of an instruction, which no other instruction has.
#[tactic(auto, using(crate::proofs::Reading::different_texts))]
pub fn text(heap: Global, instruction: Instruction) -> Result<String, AllocError>
    ensures all { DifferentTexts }
    ensures bytes { IfOk result (λ t. string_bytes t ≡ text_of instruction) }
{
    instruction.to_string(heap)
}
