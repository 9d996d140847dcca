// What failed outside a program, in words.
ghost use Rattle.std.specs.Prelude.{◌≡◌};
ghost use Rattle.command.specs.declared.failure.Failure.TheVariants.{Memory};

use std::alloc::AllocError;
use std::io;
use std::io::{Eprint, ErrorKind};

/// A failure outside the program.
#[derive(Clone, Copy)]
pub enum Failure {
    /// Its arguments can't be had.
    Arguments(io::Error),
    /// Its input can't be read.
    Input(io::Error),
    /// Its standard output can't be written.
    Output(io::Error),
    /// There is no memory for its work.
    Memory,
}

impl From<AllocError> for Failure {
    ghost from_gives = { λ _ f. f ≡ Memory };

    fn from(_error: AllocError) -> Failure {
        Failure::Memory
    }
}

impl Failure {
    // Says it on standard error, in words and without the system's number. A reader that is gone is not spoken of,
    // and what can't be said is left.
    pub(crate) fn report<R: Eprint + AllocGlobal>(self, rt: &R, name: &str, file: Option<&str>) {
        let (place, error) = match self {
            Failure::Arguments(error) => ("arguments", error),
            Failure::Input(error) => (file.unwrap_or("standard input"), error),
            Failure::Output(error) => ("standard output", error),
            Failure::Memory => ("memory", io::Error::from(ErrorKind::OutOfMemory)),
        };
        let _ = match error.kind() {
            ErrorKind::BrokenPipe => Ok(()),
            ErrorKind::OutOfMemory => eprintln!(rt; "{name}: out of memory"),
            _ => say(rt, name, place, error),
        };
    }
}

fn say<R: Eprint + AllocGlobal>(
    rt: &R,
    name: &str,
    place: &str,
    error: io::Error,
) -> io::Result<()> {
    let words = format!(in rt.alloc(); "{error}")?;
    let error = words.as_str().split(" (os error ").next().unwrap_or("");
    eprintln!(rt; "{name}: {place}: {error}")
}
