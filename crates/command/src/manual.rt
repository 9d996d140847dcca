// What a program says of itself.
use crate::request::{Misuse, Takes};
use std::fmt;

/// The version of this repository.
const VERSION: &str = "1.0.0";

/// The kit by which it is proved and built.
const KIT: &str = "rattle-kit-13f logic dac8208d650f15bf";

/// A program, as its `--help` describes it.
#[derive(Clone, Copy)]
pub struct Manual<'a> {
    pub name: &'a str,
    /// What the program is for, as a line without a full stop.
    pub summary: &'a str,
    pub takes: Takes,
    /// What it reads, after "Reads".
    pub reads: &'a str,
    /// What it writes to standard output, after "Writes".
    pub writes: &'a str,
    /// A command that shows it.
    pub example: &'a str,
}

/// How the program is called.
#[derive(Clone, Copy)]
pub(crate) struct Usage<'a>(pub(crate) Manual<'a>);

impl fmt::Display for Usage<'_> {
    fn fmt<W: fmt::Write>(&self, f: &mut fmt::Formatter<W>) -> fmt::Result {
        write!(f, "usage: {}", self.0.name)?;
        if self.0.takes.strict {
            write!(f, " [--strict]")?;
        }
        if self.0.takes.file {
            write!(f, " [FILE]")?;
        }
        write!(f, " | --help | --version")
    }
}

/// What `--help` prints.
#[derive(Clone, Copy)]
pub(crate) struct Help<'a>(pub(crate) Manual<'a>);

impl fmt::Display for Help<'_> {
    fn fmt<W: fmt::Write>(&self, f: &mut fmt::Formatter<W>) -> fmt::Result {
        let manual = self.0;
        write!(
            f,
            "{}: {}\n\n{}\n\n",
            manual.name,
            manual.summary,
            Usage(manual)
        )?;
        write!(f, "Reads {}.\n", manual.reads)?;
        if manual.takes.file {
            write!(
                f,
                "Without FILE, or where it is -, standard input is read.\n"
            )?;
        }
        write!(f, "Writes {}.\n", manual.writes)?;
        if manual.takes.strict {
            write!(
                f,
                "With --strict a refused quote is a refusal of the data.\n"
            )?;
        }
        write!(f, "\nStatus: 0 it answered; 1 the data was refused; ")?;
        write!(f, "2 usage, input, output or memory.\n\n")?;
        write!(f, "Example:\n\n    {}\n", manual.example)
    }
}

/// What `--version` prints.
#[derive(Clone, Copy)]
pub(crate) struct Version<'a>(pub(crate) Manual<'a>);

impl fmt::Display for Version<'_> {
    fn fmt<W: fmt::Write>(&self, f: &mut fmt::Formatter<W>) -> fmt::Result {
        write!(f, "{} {VERSION} ({KIT})\n", self.0.name)
    }
}

/// What is said of words that ask for nothing, with the usage.
#[derive(Clone, Copy)]
pub(crate) struct Misused<'a> {
    pub(crate) manual: Manual<'a>,
    pub(crate) misuse: Misuse<'a>,
}

impl fmt::Display for Misused<'_> {
    fn fmt<W: fmt::Write>(&self, f: &mut fmt::Formatter<W>) -> fmt::Result {
        let name = self.manual.name;
        match self.misuse {
            Misuse::UnknownArgument(word) => write!(f, "{name}: unknown argument {word:?}\n")?,
            Misuse::SecondFile(word) => write!(f, "{name}: a second file {word:?}\n")?,
        }
        write!(f, "{}\n", Usage(self.manual))
    }
}
