// Numbers as hexadecimal digits.
#![tactic(auto)]

mod digits;
mod text;

pub use digits::{digit, value};
pub use text::{HexByte, HexWord};
