// Sums and differences of two bytes. C is the carry of a sum and the borrow of a difference; V comes from signed values.
ghost use Rattle.std.specs.Prelude.{◌≡◌, pos, negsuc, ◌+ℤ◌, ◌-ℤ◌, ◌≤ℤ◌};
ghost use Rattle.alu.specs.Results.{bit, signed_value, out_of_range, added, subtracted};

use crate::flags::Flags;
use crate::outcome::Outcome;

// A byte, read as -128 to 127.
fn signed(byte: u8) -> i16
    ensures value { result ≡ signed_value byte }
    ensures range { (negsuc 127 ≤ℤ result) × (result ≤ℤ pos 127) }
{
    i16::from(byte.cast_signed())
}

// Whether a number falls outside -128 to 127.
fn overflows(value: i16) -> bool
    ensures { result ≡ out_of_range value }
{
    !(-128..=127).contains(&value)
}

// a + b + carry in signed values.
fn signed_sum(a: u8, b: u8, carry: bool) -> i16
    ensures { result ≡ signed_value a +ℤ signed_value b +ℤ pos (bit carry) }
{
    signed(a) + signed(b) + i16::from(carry)
}

// a + b + carry.
pub(crate) fn add(a: u8, b: u8, carry: bool, flags: Flags) -> Outcome
    ensures { result ≡ added a b carry flags }
{
    let value = a.wrapping_add(b).wrapping_add(u8::from(carry));
    let c = u16::from(a) + u16::from(b) + u16::from(carry) > 255;
    let v = overflows(signed_sum(a, b, carry));
    Outcome::judged(value, Flags { c, v, ..flags })
}

// a - b - borrow in signed values.
fn signed_difference(a: u8, b: u8, borrow: bool) -> i16
    ensures { result ≡ signed_value a -ℤ signed_value b -ℤ pos (bit borrow) }
{
    signed(a) - (signed(b) + i16::from(borrow))
}

// a - b - borrow.
pub(crate) fn subtract(a: u8, b: u8, borrow: bool, flags: Flags) -> Outcome
    ensures { result ≡ subtracted a b borrow flags }
{
    let value = a.wrapping_sub(b).wrapping_sub(u8::from(borrow));
    let c = u16::from(a) < u16::from(b) + u16::from(borrow);
    let v = overflows(signed_difference(a, b, borrow));
    Outcome::judged(value, Flags { c, v, ..flags })
}
