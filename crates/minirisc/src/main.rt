// The program: lists and vets the image of a control desk.
#![tactic(auto)]

mod failure;

use crate::failure::Failure;
use cli::{Command, HELP, parse};
use files::{Fault, image_binary, image_text, sheet_text};
use listing::{ListingError, listing};
use report::Report;
use std::alloc::Global;
use std::process::ExitCode;
use std::{env, fs, io};
use vetting::vet;

// The words that `read` makes of the bytes of a file.
fn words_of<'a, W: Drop, R: FnOnce(Global, &[u8]) -> Result<Vec<W>, Fault>>(
    rt: &HostRuntime,
    name: &'a str,
    read: R,
) -> Result<Vec<W>, Failure<'a>>
    requires { R.IsAlwaysCallable read }
{
    let bytes = fs::read(rt, name).map_err(|error| Failure::Unreadable { name, error })?;
    read(rt.alloc(), &bytes).map_err(|fault| Failure::Faulty { name, fault })
}

// The words of an image's file, which is binary where its name ends in `.bin`.
fn image_of<'a>(rt: &HostRuntime, name: &'a str) -> Result<Vec<u16>, Failure<'a>> {
    if name.ends_with(".bin") {
        words_of(rt, name, |heap, bytes| image_binary(heap, bytes))
    } else {
        words_of(rt, name, |heap, bytes| image_text(heap, bytes))
    }
}

// Prints the listing of an image, or that it is refused.
fn list<'a>(rt: &HostRuntime, name: &'a str) -> Result<ExitCode, Failure<'a>> {
    let image = image_of(rt, name)?;
    match listing(rt.alloc(), &image) {
        Ok(text) => {
            print!(rt; "{text}")?;
            Ok(ExitCode::SUCCESS)
        }
        Err(ListingError::Refused(refusal)) => {
            println!(rt; "{refusal}")?;
            Ok(ExitCode::FAILURE)
        }
        Err(ListingError::Memory) => Err(Failure::Faulty {
            name,
            fault: Fault::Memory,
        }),
    }
}

// Prints the report on an image and a sheet.
fn judge<'a>(rt: &HostRuntime, image: &'a str, sheet: &'a str) -> Result<ExitCode, Failure<'a>> {
    let image = image_of(rt, image)?;
    let sheet = words_of(rt, sheet, |heap, bytes| sheet_text(heap, bytes))?;
    let answer = vet(&image, &sheet);
    let report = Report {
        image: &image,
        answer,
    };
    print!(rt; "{report}")?;
    Ok(if answer.is_ok() {
        ExitCode::SUCCESS
    } else {
        ExitCode::FAILURE
    })
}

// Does what the arguments ask for.
fn run<'a>(rt: &HostRuntime, arguments: &'a [String]) -> Result<ExitCode, Failure<'a>> {
    match parse(arguments)? {
        Command::List { image } => list(rt, image),
        Command::Vet { image, sheet } => judge(rt, image, sheet),
        Command::Help => {
            print!(rt; "{HELP}")?;
            Ok(ExitCode::SUCCESS)
        }
    }
}

// The arguments behind the program's name.
fn arguments(rt: &HostRuntime) -> io::Result<Vec<String>> {
    Ok(env::args(rt)?.skip(1).collect(rt.alloc())?)
}

// Tells an error, where there is one; what cannot be printed is told nowhere, since the status says it.
fn main(rt: HostRuntime) -> ExitCode {
    let Ok(arguments) = arguments(&rt) else {
        return ExitCode::FAILURE;
    };
    match run(&rt, &arguments) {
        Ok(status) => status,
        Err(Failure::Unprinted(_)) => ExitCode::FAILURE,
        Err(failure) => {
            let _ = eprintln!(rt; "{failure}");
            ExitCode::FAILURE
        }
    }
}
