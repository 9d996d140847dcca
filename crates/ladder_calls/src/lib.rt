// Calls over the ladders of both directions, read as plain text and answered, and what is printed of them.
#![tactic(auto)]

mod bid_ladders;
mod call;
mod fault;
mod lines;
mod message;

pub use bid_ladders::{BidLadders, Done};
pub use call::{BidNumbers, Call, read_call};
pub use fault::{CallFault, Part, TextFault, WordFault};
pub use lines::AnswerLine;
pub use message::Message;
