// Pokes: what they change.
ghost use Rattle.std.specs.Prelude.{◌≡◌};
ghost use Rattle.station.specs.Places.{with_flag, poke_answer, poke_processor, poke_bus};

use crate::places::{Poke, ResultFlag};
use alu::Flags;
use bus::Bus;
use isa::RegisterName;
use machine::Processor;
use refusal::Refusal;

// One flag set or cleared; the others stay.
fn with_flag(flag: ResultFlag, set: bool, flags: Flags) -> Flags
    ensures { result ≡ with_flag flag set flags }
{
    match flag {
        ResultFlag::Z => Flags { z: set, ..flags },
        ResultFlag::C => Flags { c: set, ..flags },
        ResultFlag::N => Flags { n: set, ..flags },
        ResultFlag::V => Flags { v: set, ..flags },
    }
}

// Changes what is named; a register above 15 and a port are refused, and nothing is touched then.
pub(crate) fn change<B: Bus>(
    poke: Poke,
    processor: &mut Processor,
    bus: &mut B,
) -> Result<(), Refusal>
    ensures answer { result ≡ poke_answer B.meaning poke bus.old }
    ensures processor { processor.new ≡ poke_processor B.meaning poke processor.old }
    ensures bus { bus.new ≡ poke_bus B.meaning poke bus.old }
{
    match poke {
        Poke::Register { number, byte } => processor.set_register(
            RegisterName::try_from(number)?,
            byte,
        ),
        Poke::Cell { at, byte } => {
            if !bus.keeps(at) {
                return Err(Refusal::Port);
            }
            bus.write(at, byte);
        }
        Poke::Pc { address } => processor.pc = address,
        Poke::Flag { flag, set } => processor.flags = with_flag(flag, set, processor.flags),
    }
    Ok(())
}
