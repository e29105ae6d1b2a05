// The number that a token writes.
ghost use Rattle.std.specs.Prelude.{◌≡◌, ℕ, ◌^◌, ◌<◌, List, IfSome, Option};
ghost use Rattle.files.specs.declared.fault.Digits.{Digits as Count};
ghost use Rattle.files.specs.declared.fault.Digits.TheVariants.{Four, Eight};
ghost use Rattle.files.specs.Words.{digit_count, with_digit, word_of};

use crate::fault::Digits;

impl Digits {
    // How many digits these are.
    fn count(self) -> usize
        ensures { result ≡ digit_count self }
    {
        self as usize
    }
}

// The number with one digit more; none where the byte is no digit.
fn with_digit(number: u32, byte: u8) -> Option<u32>
    requires { number < 2 ^ 28 }
    ensures { result ≡ with_digit number byte }
{
    Some(number * 16 + u32::from(hexadecimal::value(byte)?))
}

// The number that a word of so many digits writes; none where the token is no such word.
fn number(digits: Digits, token: &[u8]) -> Option<u32>
    ensures value { result ≡ word_of digits token.now }
    ensures bound { IfSome result (λ n. n < 16 ^ digit_count digits) }
{
    if token.len() != digits.count() {
        return None;
    }
    token.iter().try_fold(
        0,
        |number, byte|
            requires { number < 2 ^ 28 }
        { with_digit(number, *byte) },
    )
}

// A type of word that a text writes in hexadecimal digits.
pub trait Word: Sized + Drop {
    ghost DIGITS: { Count };

    // How many digits a word has.
    const DIGITS: Digits;

    ghost value: { List ℕ → Option Self };

    // The word that these bytes write, if they are one.
    fn read(token: &[u8]) -> Option<Self>
        ensures { result ≡ value token.now };
}

impl Word for u16 {
    ghost DIGITS = { Four };

    const DIGITS: Digits = Digits::Four;

    ghost value = { word_of Four };

    fn read(token: &[u8]) -> Option<u16> {
        number(Self::DIGITS, token).map(|number| number as u16)
    }
}

impl Word for u32 {
    ghost DIGITS = { Eight };

    const DIGITS: Digits = Digits::Eight;

    ghost value = { word_of Eight };

    fn read(token: &[u8]) -> Option<u32> {
        number(Self::DIGITS, token)
    }
}
