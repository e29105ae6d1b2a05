// The command line of the program: what is asked for, or what was expected.
#![tactic(auto)]

mod command;
mod usage;

pub use command::{Command, CommandName, command_name, parse};
pub use usage::{HELP, Usage};
