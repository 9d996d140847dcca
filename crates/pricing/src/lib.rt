// From the figures of a quarter to its imbalance price: rulebooks and quotes.
#![tactic(auto)]

mod codes;
mod fault;
mod incentive;
mod quote;
mod rulebook;
mod rulebooks;
mod ruling;

pub use codes::{FiveQuotes, Terms, five_quotes};
pub use fault::QuoteFault;
pub use incentive::Incentive;
pub use quote::{Quote, QuoteDirection, quote_figures, quote_source};
pub use rulebook::Rulebook;
pub use rulebooks::{CombinedAll, CombinedAutomatic, Finnish, MaxMin, WeightedAverage};
pub use ruling::{DirectedPrice, Net, Ruling};
