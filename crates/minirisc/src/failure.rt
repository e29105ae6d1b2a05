// What keeps the program from an answer.
use cli::Usage;
use files::Fault;
use std::io;
use thiserror::Error;

// Arguments of no command, a file that cannot be read, a file that holds no words, or an output that cannot be written.
// What `?` converts from an I/O error is the failure of a print: that of a read comes with the file's name.
#[derive(Debug, Drop, Error)]
pub enum Failure<'a> {
    #[error("{0}")]
    Usage(#[from] Usage),
    #[error("{name}: {error}")]
    Unreadable { name: &'a str, error: io::Error },
    #[error("{name}:{}{fault}", gap(.fault))]
    Faulty { name: &'a str, fault: Fault },
    #[error("{0}")]
    Unprinted(#[from] io::Error),
}

// A fault that has a line has it right behind the file's name.
fn gap(fault: &Fault) -> &'static str {
    match fault {
        Fault::Malformed { .. } => "",
        Fault::HalfWord { .. } | Fault::Memory => " ",
    }
}
