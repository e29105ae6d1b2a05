// What was expected of the arguments, and the help.
ghost use Rattle.std.specs.Prelude.{Some};
ghost use Rattle.cli.specs.Arguments.{expected_text, usage_text};

use crate::command::CommandName;
use std::fmt;

// The text of the command `help`.
pub const HELP: &str = "\
minirisc: lists and vets the image of a control desk

minirisc list IMAGE         the instruction of each word
minirisc vet IMAGE SHEET    accepted with its depths, or refused with number, name and place
minirisc help               this text

IMAGE: 256 words of four hexadecimal digits, // starts a comment; or NAME.bin with 512 bytes
SHEET: words of eight hexadecimal digits, // starts a comment
";

// What is wrong with the arguments: no command is known by the first, or the command has other files.
#[derive(Clone, Copy, PartialEq, Eq, Debug)]
pub enum Usage {
    Unknown,
    Files(CommandName),
}

// What the arguments should have been.
#[derive(Clone, Copy)]
struct Expected(Usage);

impl fmt::Display for Expected {
    ghost output = { λ e. Some (expected_text e.0) };

    fn fmt<W: fmt::Write>(&self, f: &mut fmt::Formatter<W>) -> fmt::Result {
        f.write_str(match self.0 {
            Usage::Unknown => "list, vet or help",
            Usage::Files(CommandName::List) => "list IMAGE",
            Usage::Files(CommandName::Vet) => "vet IMAGE SHEET",
            Usage::Files(CommandName::Help) => "help alone",
        })
    }
}

impl fmt::Display for Usage {
    ghost output = { λ u. Some (usage_text u) };

    fn fmt<W: fmt::Write>(&self, f: &mut fmt::Formatter<W>) -> fmt::Result {
        write!(f, "expected {}; try 'minirisc help'", Expected(*self))
    }
}
