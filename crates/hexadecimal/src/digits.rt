// One hexadecimal digit, as a number and as a character.
ghost use Rattle.std.specs.Prelude.{◌≡◌, ◌%◌, ◌<◌};
ghost use Rattle.hexadecimal.specs.Hexadecimal.{digit_of, value_of};

// The sixteen digits.
const DIGITS: [u8; 16] = *b"0123456789ABCDEF";

// The capital digit of the low four bits of a number.
pub fn digit(n: u8) -> char
    ensures digit { result ≡ digit_of (n % 16) }
    ensures ascii { result < 128 }
{
    char::from(DIGITS[usize::from(n % 16)])
}

// The number that a digit stands for, in either case; none where the byte is no digit.
pub fn value(byte: u8) -> Option<u8>
    ensures { result ≡ value_of byte }
{
    let digit = char::from(byte).to_digit(16)?;
    Some(digit as u8)
}
