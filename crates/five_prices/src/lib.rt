// What the programs that print five prices of a packed sheet share.
#![tactic(auto)]

mod program;

pub use program::{FivePrices, unreported};
