// Closures of sets under a rule.
ghost use Rattle.std.specs.Prelude.{ℕ};
ghost use Rattle.walk.specs.declared.addresses.AddressSet.{AddressSet};
ghost use Rattle.walk.specs.Sets.{Puts};
ghost use Rattle.walk.specs.Closures.{Applied, IsClosure};

use crate::addresses::AddressSet;

// A rule by which addresses are put into a set.
pub(crate) trait Rule {
    // Which addresses the rule asks for, at a set and an address.
    ghost asks: { Self → AddressSet → ℕ → ℕ → Type 0 };

    // Puts in what the rule asks for at an address, and tells whether the set grew.
    fn apply(&self, at: u8, set: &mut AddressSet) -> bool
        ensures { Puts (asks self.now set.old at) set.old set.new result };
}

// Applies a rule once at each address, and tells whether the set grew.
pub(crate) fn pass<R: Rule>(rule: &R, set: &mut AddressSet) -> bool
    ensures { Applied (R.asks rule.now) 256 set.old set.new result }
{
    let mut grown = false;
    for at in 0..=u8::MAX {
        grown |= rule.apply(at, set);
    }
    grown
}

// A pass that stays a call when compiled: with its loop joined to the one of `close`, each address takes twice as long.
#[inline(never)]
fn called_pass<R: Rule>(rule: &R, set: &mut AddressSet) -> bool
    ensures { Applied (R.asks rule.now) 256 set.old set.new result }
{
    pass(rule, set)
}

// The closure of a set under a rule.
pub(crate) fn close<R: Rule>(rule: &R, mut set: AddressSet) -> AddressSet
    ensures { IsClosure (R.asks rule.now) set result }
{
    while called_pass(rule, &mut set) {}
    set
}
