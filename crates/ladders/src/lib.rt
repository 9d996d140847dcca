// Items that come and go, kept in their order in memory that the caller lends.
#![tactic(auto)]

mod fault;
mod item;
mod ladder;
mod moves;

pub use fault::LadderFault;
pub use item::Item;
pub use ladder::Ladder;
