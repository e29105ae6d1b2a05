// The beginnings of sessions: what of a halted station can be looked at and changed by hand. Nothing of it can be called from outside yet.
#![tactic(auto)]

mod acting;
mod looking;
mod places;
mod vetted;

pub use places::{FlagName, Peeked, Place, Poke, ResultFlag};
