// Frames: a frame is what happens between a call and its return.
ghost use Rattle.std.specs.Prelude.{◌≡◌, ℕ, ◌↔◌};
ghost use Rattle.walk.specs.Sets.{Has, Puts};
ghost use Rattle.walk.specs.Walk.{graph, Deepest};
ghost use Rattle.walk.specs.Frames.{Returning, Entered};
ghost use Rattle.walk.specs.Rules.{returns_of, Follows, AsksReturns, AsksSteps, AsksDeep, AsksCalls};

use crate::addresses::AddressSet;
use crate::closure::{Rule, close, pass};
use crate::flow::Flow;

// The rule by which the addresses are found from which a frame returns.
#[derive(Clone, Copy)]
struct Returns<'a> {
    flows: &'a [Flow; 256],
}

// Whether a frame returns from such a word, if it does so from the addresses in the set.
fn returns_from(flow: Flow, at: u8, returning: &AddressSet) -> bool
    ensures { result ≡ returns_of returning.now at flow }
{
    let next = at.wrapping_add(1);
    match flow {
        Flow::Next => returning.contains(next),
        Flow::Branch(target) => returning.contains(next) || returning.contains(target),
        Flow::Jump(target) => returning.contains(target),
        Flow::Call(target) => returning.contains(target) && returning.contains(next),
        Flow::Return => true,
        Flow::Nowhere => false,
    }
}

impl Rule for Returns<'_> {
    ghost asks = { λ rule. AsksReturns rule.flows.now };

    // From the last address to the first, since most words lead on to the next. What is in the set is not asked for again.
    fn apply(&self, at: u8, set: &mut AddressSet) -> bool {
        let at = u8::MAX - at;
        !set.contains(at) && returns_from(self.flows[usize::from(at)], at, set) && set.insert(at)
    }
}

// The words, and the addresses from which a frame returns.
#[derive(Clone, Copy)]
pub(crate) struct Frames<'a> {
    flows: &'a [Flow; 256],
    returning: AddressSet,
}

impl Frames<'_> {
    // Finds from where a frame returns.
    #[tactic(auto, using(crate::proofs::Returns::exact))]
    pub(crate) fn new(flows: &[Flow; 256]) -> Frames<'_>
        ensures flows { result.flows.now ≡ flows.now }
        ensures exact { (a : ℕ) → Has result.returning a ↔ Returning (graph result.flows.now) a }
    {
        Frames {
            flows,
            returning: close(&Returns { flows }, AddressSet::new()),
        }
    }

    // Puts in where the word at an address leads within its frame, and tells whether the set grew.
    fn follow(&self, at: u8, set: &mut AddressSet) -> bool
        ensures { Puts (Follows self.now.returning (graph self.now.flows.now at) at) set.old set.new result }
    {
        let next = at.wrapping_add(1);
        match self.flows[usize::from(at)] {
            Flow::Next => set.insert(next),
            Flow::Branch(target) => set.insert(next) | set.insert(target),
            Flow::Jump(target) => set.insert(target),
            Flow::Call(target) => self.returning.contains(target) && set.insert(next),
            Flow::Return | Flow::Nowhere => false,
        }
    }

    // Puts in what the word at an address calls, and tells whether the set grew.
    fn enter(&self, at: u8, set: &mut AddressSet) -> bool
        ensures { Puts (λ t. graph self.now.flows.now at ≡ Flow.Call t) set.old set.new result }
    {
        match self.flows[usize::from(at)] {
            Flow::Call(target) => set.insert(target),
            _ => false,
        }
    }

    // What the addresses of a set call. One pass finds it, since the rule does not look at the set that it fills.
    #[tactic(auto, using(crate::proofs::Steps::calls_at_once, crate::proofs::Sets::within))]
    pub(crate) fn entered(&self, from: &AddressSet) -> AddressSet
        ensures { (t : ℕ) → Has result t ↔ Entered (graph self.now.flows.now) (Has from.now) t }
    {
        let mut targets = AddressSet::new();
        pass(&Calls { frames: self, from }, &mut targets);
        targets
    }

    // The length of the longest list that the walk from a start reaches, unless it passes the limit.
    #[tactic(auto, using(crate::proofs::Walks::deeper))]
    pub(crate) fn depth(&self, start: u8, limit: u8) -> Option<u8>
        requires { (a : ℕ) → Has self.now.returning a ↔ Returning (graph self.now.flows.now) a }
        ensures { Deepest (graph self.now.flows.now) start limit result }
    {
        let steps = Steps { frames: self };
        let mut level = AddressSet::of(start);
        for depth in 0..=limit {
            level = self.entered(&close(&steps, level));
            if level.is_empty() {
                return Some(depth);
            }
        }
        None
    }
}

// The rule of the steps within a frame.
#[derive(Clone, Copy)]
pub(crate) struct Steps<'a> {
    pub frames: &'a Frames<'a>,
}

impl Rule for Steps<'_> {
    ghost asks = { λ rule. AsksSteps rule.frames.now.flows.now rule.frames.now.returning };

    fn apply(&self, at: u8, set: &mut AddressSet) -> bool {
        set.contains(at) && self.frames.follow(at, set)
    }
}

// The rule of the steps within a frame and into calls.
#[derive(Clone, Copy)]
pub(crate) struct DeepSteps<'a> {
    pub frames: &'a Frames<'a>,
}

impl Rule for DeepSteps<'_> {
    ghost asks = { λ rule. AsksDeep rule.frames.now.flows.now rule.frames.now.returning };

    fn apply(&self, at: u8, set: &mut AddressSet) -> bool {
        set.contains(at) && (self.frames.follow(at, set) | self.frames.enter(at, set))
    }
}

// The rule of the calls at the addresses of another set.
#[derive(Clone, Copy)]
pub(crate) struct Calls<'a> {
    pub frames: &'a Frames<'a>,
    pub from: &'a AddressSet,
}

impl Rule for Calls<'_> {
    ghost asks = { λ rule. AsksCalls rule.frames.now.flows.now rule.from.now };

    fn apply(&self, at: u8, set: &mut AddressSet) -> bool {
        self.from.contains(at) && self.frames.enter(at, set)
    }
}
