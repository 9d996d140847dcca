// The area's settlement book: prices of a day's quarters, imbalances of the parties, and what they are paid.
#![tactic(auto)]

mod book;
mod fault;
mod party;
mod quarter;

pub use book::{Book, MOST_PARTIES, MOST_PERIODS};
pub use fault::{BookFault, CountFault};
pub use quarter::Quarter;
