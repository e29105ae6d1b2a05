// Sets of addresses.
ghost use Rattle.std.specs.Prelude.{◌≡◌, ℕ, true, false, ◌↔◌};
ghost use Rattle.walk.specs.Sets.{has, Has, Puts};

use std::mem;

// A set of addresses.
#[derive(Clone, Copy)]
pub struct AddressSet {
    members: [bool; 256],
}

impl AddressSet {
    // The empty set.
    pub(crate) fn new() -> AddressSet
        ensures { (a : ℕ) → Has result a → ⊥ }
    {
        AddressSet {
            members: [false; 256],
        }
    }

    // The set of one address.
    pub(crate) fn of(at: u8) -> AddressSet
        ensures { (a : ℕ) → Has result a ↔ (a ≡ at) }
    {
        let mut set = AddressSet::new();
        set.insert(at);
        set
    }

    // Whether an address is in the set.
    pub fn contains(&self, at: u8) -> bool
        ensures { result ≡ has self.now at }
    {
        self.members[usize::from(at)]
    }

    // Puts an address in, and tells whether it was not in before.
    pub(crate) fn insert(&mut self, at: u8) -> bool
        ensures { Puts (λ a. a ≡ at) self.old self.new result }
    {
        !mem::replace(&mut self.members[usize::from(at)], true)
    }

    // Whether no address is in the set.
    pub(crate) fn is_empty(&self) -> bool
        ensures yes { result ≡ true → (a : ℕ) → Has self.now a → ⊥ }
        ensures not { result ≡ false → (a : ℕ) × Has self.now a }
    {
        !self.members.contains(&true)
    }
}
