// Shifts and rotates by one place.
ghost use Rattle.std.specs.Prelude.{◌≡◌, ◌+◌, ◌*◌, ◌/◌, ◌%◌, ◌==◌, nat_le};
ghost use Rattle.alu.specs.Results.{bit, shift_outcome, shifted};
ghost use Rattle.alu.specs.Laws.{ExactShift};

use crate::flags::Flags;
use crate::outcome::Outcome;
use isa::ShiftOperation;

// One place to the left; a bit comes in at bit 0.
#[tactic(auto, using(crate::proofs::Shifts::or_low))]
fn left(a: u8, taken_in: bool) -> u8
    ensures { result ≡ (2 * a + bit taken_in) % 256 }
{
    a << 1 | u8::from(taken_in)
}

// One place to the right; a bit comes in at bit 7.
fn right(a: u8, taken_in: bool) -> u8
    ensures { result ≡ a / 2 + 128 * bit taken_in }
{
    a >> 1 | u8::from(taken_in) << 7
}

// One place to the left; bit 7 comes in at bit 0.
#[tactic(auto, using(crate::proofs::Shifts::or_low))]
fn rotated_left(a: u8) -> u8
    ensures { result ≡ (2 * a + bit (nat_le 128 a)) % 256 }
{
    a.rotate_left(1)
}

// One place to the right; bit 0 comes in at bit 7.
#[tactic(auto, using(crate::proofs::Shifts::or_high))]
fn rotated_right(a: u8) -> u8
    ensures { result ≡ a / 2 + 128 * bit (a % 2 == 1) }
{
    a.rotate_right(1)
}

// The signed byte's half: bit 7, the sign, stays.
fn halved(a: u8) -> u8
    ensures { result ≡ a / 2 + 128 * bit (nat_le 128 a) }
{
    (a.cast_signed() >> 1).cast_unsigned()
}

// A result with the bit shifted out.
fn outcome(value: u8, out: bool, flags: Flags) -> Outcome
    ensures { result ≡ shift_outcome value out flags }
{
    Outcome::judged(value, Flags { c: out, ..flags })
}

// The result and the flags of a shift or rotate. To the left bit 7 is shifted out, to the right bit 0.
pub fn shift(operation: ShiftOperation, a: u8, flags: Flags) -> Outcome
    ensures result { result ≡ shifted operation a flags }
    ensures law { ExactShift operation a flags result }
{
    let top = a >= 0x80;
    let bottom = a % 2 == 1;
    match operation {
        ShiftOperation::Sl0 => outcome(left(a, false), top, flags),
        ShiftOperation::Sl1 => outcome(left(a, true), top, flags),
        ShiftOperation::Rol => outcome(rotated_left(a), top, flags),
        ShiftOperation::Rlc => outcome(left(a, flags.c), top, flags),
        ShiftOperation::Sr0 => outcome(right(a, false), bottom, flags),
        ShiftOperation::Sr1 => outcome(right(a, true), bottom, flags),
        ShiftOperation::Asr => outcome(halved(a), bottom, flags),
        ShiftOperation::Ror => outcome(rotated_right(a), bottom, flags),
        ShiftOperation::Rrc => outcome(right(a, flags.c), bottom, flags),
    }
}
