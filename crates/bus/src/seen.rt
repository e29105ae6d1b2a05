ghost use Rattle.bus.specs.Meaning.{Laws};
ghost use Rattle.bus.specs.Seen.{Alike, ReadsLastWritten, seen};
ghost use Rattle.std.specs.Prelude.{[], ◌≡◌};

use crate::Bus;

// Whether the bus requests. From its condition on, it is a bus that is seen by its events, which keeps the laws
// and shows the same; and whatever happens, its kept addresses read as they were last written.
#[tactic(auto, using(crate::proofs::Events::seen_laws, crate::proofs::Events::seen_alike, crate::proofs::Events::reads_last_written))]
pub fn seen_by_events<B: Bus>(bus: &B) -> bool
    ensures answer { result ≡ (seen B.meaning bus.now).requests [] }
    ensures laws { Laws 256 (seen B.meaning bus.now) }
    ensures alike { Alike B.meaning bus.now (seen B.meaning bus.now) [] }
    ensures last { ReadsLastWritten 256 B.meaning bus.now }
{
    bus.requests()
}
