// What is said of a line that is no call.
use crate::fault::{Part, TextFault};
use std::fmt;
use words::Found;

impl fmt::Display for Part {
    fn fmt<W: fmt::Write>(&self, f: &mut fmt::Formatter<W>) -> fmt::Result {
        match self {
            Part::Call => write!(f, "`add` or `withdraw`"),
            Part::Direction => write!(f, "`up` or `down`"),
            Part::Price => write!(f, "the price in euros, with two decimals at most"),
            Part::Quantity => write!(f, "the quantity in whole kW"),
            Part::Number => write!(f, "the bid's number"),
            Part::End => write!(f, "the end of the line"),
        }
    }
}

/// A fault of a text with the word at which it stands, as a line for people.
#[derive(Clone, Copy)]
pub struct Message<'a> {
    pub fault: TextFault,
    pub word: Option<&'a [u8]>,
}

impl fmt::Display for Message<'_> {
    fn fmt<W: fmt::Write>(&self, f: &mut fmt::Formatter<W>) -> fmt::Result {
        let line = self.fault.line.saturating_add(1);
        let part = self.fault.problem;
        let found = Found(self.word);
        write!(f, "line {line}: expected {part}, found {found}")
    }
}
