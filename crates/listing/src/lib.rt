// The listing of an image: each address with its word and its instruction.
#![tactic(auto)]

mod line;
mod text;

pub use line::Line;
pub use text::{ListingError, listing};
