// The instructions of the MiniRISC processor: their words and their text.
#![tactic(auto)]

mod assembly;
mod decoding;
mod encoding;
mod image;
mod instruction;
mod register;

pub use decoding::decode;
pub use encoding::encode;
pub use image::instruction_at;
pub use instruction::{AluOperation, Condition, Instruction, Operand, ShiftOperation};
pub use register::RegisterName;
