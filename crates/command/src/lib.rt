// What all programs share: the words after their name, their failures and their statuses.
#![tactic(auto)]

mod failure;
mod manual;
mod program;
mod request;

pub use failure::Failure;
pub use manual::Manual;
pub use program::{Program, Status, ended_by_words, run, status_of};
pub use request::{Misuse, Options, Request, Takes, request_of};
