// The name of one of the sixteen registers.
ghost use Rattle.std.specs.Prelude.{◌≡◌, ◌<◌, ◌≤◌, Ok, Err};
ghost use Rattle.refusal.specs.declared.refusal.Refusal.TheVariants.{Register as Unknown};

use refusal::Refusal;

#[derive(Clone, Copy, PartialEq, Eq, Debug)]
pub struct RegisterName {
    number: u8,
    ghost small: { number < 16 },
}

// The register of that number; a number above 15 is refused.
impl TryFrom<u8> for RegisterName {
    type Error = Refusal;

    ghost try_from_gives = { λ number r. elim r [ Ok x ↦ (number < 16) × (x.number ≡ number) | Err e ↦ (16 ≤ number) × (e ≡ Unknown) ] };

    fn try_from(number: u8) -> Result<Self, Refusal> {
        if number < 16 {
            Ok(RegisterName { number })
        } else {
            Err(Refusal::Register)
        }
    }
}

impl RegisterName {
    ghost use Rattle.isa.specs.Words.{register};

    // Its number, 0 to 15.
    pub fn number(self) -> u8
        ensures value { result ≡ self.number }
        ensures bound { result < 16 }
    {
        self.number
    }

    // The register that the low four bits of a number name.
    #[tactic(auto, unfolding(crate::specs::Words::register))]
    pub(crate) fn from_low_bits(number: u8) -> Self
        ensures { result ≡ register number }
    {
        RegisterName {
            number: number % 16,
        }
    }
}
