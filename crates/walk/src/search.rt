// The walk.
ghost use Rattle.walk.specs.Walk.{graph};
ghost use Rattle.walk.specs.Result.{Walked};

use crate::addresses::AddressSet;
use crate::closure::close;
use crate::flow::Flow;
use crate::frames::{DeepSteps, Frames, Steps};

// What a walk reaches: the addresses with an empty and with a filled list, and the depth, unless it passes the limit.
#[derive(Clone, Copy)]
pub struct Reach {
    pub empty: AddressSet,
    pub filled: AddressSet,
    pub depth: Option<u8>,
}

// Walks from a start.
#[tactic(auto, using(crate::proofs::Walks::walked))]
pub fn walk(flows: &[Flow; 256], start: u8, limit: u8) -> Reach
    ensures { Walked (graph flows.now) start limit result }
{
    let frames = Frames::new(flows);
    let steps = Steps { frames: &frames };
    let empty = close(&steps, AddressSet::of(start));
    let filled = close(&DeepSteps { frames: &frames }, frames.entered(&empty));
    Reach {
        empty,
        filled,
        depth: frames.depth(start, limit),
    }
}
