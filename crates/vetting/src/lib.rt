// Vetting: whether an image may be burned with its sheet, and how deep its calls go.
#![tactic(auto)]

mod depths;
mod part;
mod rulebooks;
mod rules;
mod sheet;
mod sheet_word;
mod verdict;
mod words;

pub use depths::Depths;
pub use rulebooks::{HandlerRules, MainRules, Rulebook};
pub use rules::Rule;
pub use sheet::Sheet;
pub use verdict::vet;
