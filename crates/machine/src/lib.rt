// The MiniRISC processor: its registers, flags and stack, and one step of it over any bus.
#![tactic(auto)]

mod access;
mod execution;
mod pointer;
mod processor;
mod stack;
mod stepping;

pub use access::{Access, StepRecord};
pub use pointer::StackPointer;
pub use processor::{Processor, Saved};
pub use stepping::step;
