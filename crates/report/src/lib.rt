// The report on a vetted image.
#![tactic(auto)]

mod text;

pub use text::Report;
