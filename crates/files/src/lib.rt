// The words of an image or a sheet, from the bytes of its file.
#![tactic(auto)]

mod fault;
mod formats;
mod message;
mod reader;
mod shown;
mod tokens;
mod word;

pub use fault::{Digits, Fault};
pub use formats::{image_binary, image_text, sheet_text};
