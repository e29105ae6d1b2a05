// One step.
ghost use Rattle.std.specs.Prelude.{◌≡◌};
ghost use Rattle.machine.specs.Steps.{interrupted, station, stepped, stepped_to};
ghost use Rattle.machine.specs.Laws.{LawfulStep};
ghost use Rattle.machine.specs.Parts.{WordInParts};

use crate::access::StepRecord;
use crate::processor::Processor;
use bus::Bus;
use isa::instruction_at;

// The address at which interrupts enter.
const VECTOR: u8 = 1;

impl Processor {
    // PC and the six flags are pushed, PC becomes 1, IE 0 and IF 1.
    fn interrupt(&mut self)
        ensures { self.new ≡ interrupted self.old }
    {
        self.push(self.pc);
        self.pc = VECTOR;
        self.flags.ie = false;
        self.flags.handling = true;
    }
}

// One step: the bus gets three clocks; the word at PC is executed; if IE is now 1 and the bus requests, the bus gets one
// clock more and the processor is interrupted. Besides what it does, the laws that every step keeps to, and the word that
// it ran in four parts.
#[tactic(auto, using(crate::proofs::Lawful::lawful_at))]
pub fn step<B: Bus>(image: &[u16; 256], processor: &mut Processor, bus: &mut B) -> StepRecord
    ensures stepped { stepped_to processor.new bus.new result ≡ stepped B.meaning image.now (station processor.old bus.old) }
    ensures lawful { LawfulStep B.meaning image.now (station processor.old bus.old) processor.new result }
    ensures parts { WordInParts B.meaning image.now (station processor.old bus.old) }
{
    bus.clock();
    bus.clock();
    bus.clock();
    let address = processor.pc;
    let handler = processor.flags.handling;
    let access = processor.run(instruction_at(image, address), bus);
    let interrupted = processor.flags.ie && bus.requests();
    if interrupted {
        bus.clock();
        processor.interrupt();
    }
    StepRecord {
        address,
        handler,
        access,
        interrupted,
    }
}
