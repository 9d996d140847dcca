// Ladders and bids worked by hand, their refusals and their memory; tickets, a kind of item from outside the library; and
// a morning's calls on a ladder, whose memory is read when the ladder is gone.
#![tactic(auto)]

#[cfg(test)]
mod bid_bounds;
#[cfg(test)]
mod by_hand;
#[cfg(test)]
mod calls;
#[cfg(test)]
mod memories;
mod mornings;
#[cfg(test)]
mod refusals;
mod ticket;
#[cfg(test)]
mod tickets;

pub use mornings::morning;
pub use ticket::Ticket;
