// The devices of a control desk, and its bus.
#![tactic(auto)]

mod buttons;
mod desk_bus;
mod input;
mod memory;
mod output;

pub use buttons::Buttons;
pub use desk_bus::{Desk, desk};
pub use input::Input;
pub use memory::Memory;
pub use output::Output;
