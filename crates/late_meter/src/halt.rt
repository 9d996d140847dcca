// Why the program stops before its end.
use settlement::{BookFault, CountFault};
use std::io;
use thiserror::Error;
use units::Refusal;

#[derive(Debug, Drop, Error)]
pub(crate) enum Halt {
    #[error("the book is not started: refused, {} at {}", .0.number(), .0.place())]
    Start(#[from] CountFault),
    #[error("the book refuses a call: refused, {} at {}", .0.number(), .0.place())]
    Book(#[from] BookFault),
    #[error(transparent)]
    Io(#[from] io::Error),
}
