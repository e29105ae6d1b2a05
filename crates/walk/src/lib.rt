// Walks over a program of 256 words with calls and returns: which addresses are reached, and how deep the calls go.
#![tactic(auto)]

mod addresses;
mod closure;
mod flow;
mod frames;
mod search;

pub use addresses::AddressSet;
pub use flow::Flow;
pub use search::{Reach, walk};
