// Arithmetic, logic, shifts and rotates: each result with the flags after it.
#![tactic(auto)]

mod arithmetic;
mod flags;
mod operation;
mod outcome;
mod shifting;

pub use flags::Flags;
pub use operation::{compute, swap};
pub use outcome::Outcome;
pub use shifting::shift;
