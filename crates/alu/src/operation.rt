// Operations on a register and a second operand, and the swap of a byte's halves.
ghost use Rattle.std.specs.Prelude.{◌≡◌};
ghost use Rattle.alu.specs.Results.{exchanged, swapped, computed};
ghost use Rattle.alu.specs.Laws.{Exact, HalvesSwapped};

use crate::arithmetic::{add, subtract};
use crate::flags::Flags;
use crate::outcome::Outcome;
use isa::AluOperation;

// The two halves of a byte, exchanged.
#[tactic(auto, using(crate::proofs::Shifts::or_halves))]
fn halves(byte: u8) -> u8
    ensures { result ≡ exchanged byte }
{
    byte.rotate_left(4)
}

// The two halves of a byte change places.
pub fn swap(a: u8, flags: Flags) -> Outcome
    ensures result { result ≡ swapped a flags }
    ensures law { HalvesSwapped a flags result }
{
    Outcome::judged(halves(a), flags)
}

// The result and the flags of an operation on two bytes. ADC takes in C as a carry, SBC as a borrow; CMP is SUB and TST is
// AND, their results to be dropped.
#[tactic(auto, using(crate::proofs::Exact::exact))]
pub fn compute(operation: AluOperation, a: u8, b: u8, flags: Flags) -> Outcome
    ensures result { result ≡ computed operation a b flags }
    ensures law { Exact operation a b flags result }
{
    match operation {
        AluOperation::Add => add(a, b, false, flags),
        AluOperation::Adc => add(a, b, flags.c, flags),
        AluOperation::Sub | AluOperation::Cmp => subtract(a, b, false, flags),
        AluOperation::Sbc => subtract(a, b, flags.c, flags),
        AluOperation::And | AluOperation::Tst => Outcome::judged(a & b, flags),
        AluOperation::Or => Outcome::judged(a | b, flags),
        AluOperation::Xor => Outcome::judged(a ^ b, flags),
    }
}
