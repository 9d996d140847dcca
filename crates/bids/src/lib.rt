// Bids in either direction, and the merit order in which they stand on their ladders.
#![tactic(auto)]

mod bid;
mod fault;
mod kinds;
mod row;

pub use bid::{Bid, MOST_QUANTITY, bid_number};
pub use fault::BidFault;
pub use kinds::{DownBid, MOST_BIDS, UpBid};
pub use row::BidRow;
