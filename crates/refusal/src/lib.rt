// What the toolkit refuses: a number, a name, a place and a line of text for each case.
#![tactic(auto)]

mod describe;
mod place;
mod refusal;
mod text;

pub use refusal::Refusal;
