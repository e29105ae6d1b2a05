// Peeks: what they answer, and that a kept address costs one read of the bus.
ghost use Rattle.std.specs.Prelude.{◌≡◌};
ghost use Rattle.station.specs.Places.{flag_of, peek_answer, peek_bus};

use crate::places::{FlagName, Peeked, Place};
use alu::Flags;
use bus::Bus;
use isa::RegisterName;
use machine::Processor;
use refusal::Refusal;

// A flag by its name.
fn flag(name: FlagName, flags: Flags) -> bool
    ensures { result ≡ flag_of name flags }
{
    match name {
        FlagName::Z => flags.z,
        FlagName::C => flags.c,
        FlagName::N => flags.n,
        FlagName::V => flags.v,
        FlagName::Ie => flags.ie,
        FlagName::If => flags.handling,
    }
}

// What stands at a place; a register above 15 and a port are refused.
pub(crate) fn look<B: Bus>(
    place: Place,
    processor: &Processor,
    bus: &mut B,
) -> Result<Peeked, Refusal>
    ensures answer { result ≡ peek_answer B.meaning place processor.now bus.old }
    ensures bus { bus.new ≡ peek_bus B.meaning place bus.old }
{
    match place {
        Place::Register(number) => {
            Ok(Peeked::Byte(processor.register(RegisterName::try_from(number)?)))
        }
        Place::Cell(at) => {
            if bus.keeps(at) {
                Ok(Peeked::Byte(bus.read(at)))
            } else {
                Err(Refusal::Port)
            }
        }
        Place::Pc => Ok(Peeked::Byte(processor.pc)),
        Place::Flag(name) => Ok(Peeked::Flag(flag(name, processor.flags))),
        Place::Top => Ok(Peeked::Word(processor.top())),
    }
}
