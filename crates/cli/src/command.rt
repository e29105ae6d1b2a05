// The commands, and the arguments that they take.
ghost use Rattle.std.specs.Prelude.{◌≡◌, map, length, IfOk, string_bytes};
ghost use Rattle.cli.specs.Arguments.{arguments_of, Asked, Found, NameAsked};

use crate::usage::Usage;
use std::str::FromStr;

// The name of a command.
#[derive(Clone, Copy, PartialEq, Eq, Debug)]
pub enum CommandName {
    List,
    Vet,
    Help,
}

impl FromStr for CommandName {
    type Err = Usage;

    ghost from_str_gives = { Found };

    fn from_str(word: &str) -> Result<CommandName, Usage> {
        match word {
            "list" => Ok(CommandName::List),
            "vet" => Ok(CommandName::Vet),
            "help" => Ok(CommandName::Help),
            _ => Err(Usage::Unknown),
        }
    }
}

// What the program is asked to do, with the names of the files.
#[derive(Clone, Copy, PartialEq, Eq, Debug)]
pub enum Command<'a> {
    List { image: &'a str },
    Vet { image: &'a str, sheet: &'a str },
    Help,
}

// The command that the arguments ask for.
pub fn parse(arguments: &[String]) -> Result<Command<'_>, Usage>
    ensures { Asked (map string_bytes arguments.now) result }
{
    let (first, files) = arguments.split_first().ok_or(Usage::Unknown)?;
    let name: CommandName = first.as_str().parse()?;
    match (name, files) {
        (CommandName::List, [image]) => Ok(Command::List {
            image: image.as_str(),
        }),
        (CommandName::Vet, [image, sheet]) => Ok(Command::Vet {
            image: image.as_str(),
            sheet: sheet.as_str(),
        }),
        (CommandName::Help, []) => Ok(Command::Help),
        _ => Err(Usage::Files(name)),
    }
}

// The name of the command that the arguments ask for, where they are as many as it takes. The answer borrows nothing.
pub fn command_name(arguments: &[String]) -> Result<CommandName, Usage>
    ensures asked { NameAsked (map string_bytes arguments.now) result }
    ensures count { IfOk result (λ c. length arguments.now ≡ arguments_of c) }
{
    Ok(match parse(arguments)? {
        Command::List { .. } => CommandName::List,
        Command::Vet { .. } => CommandName::Vet,
        Command::Help => CommandName::Help,
    })
}
