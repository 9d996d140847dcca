// The figures of a quarter: what its slots sum up to, and the prices that follow from the sums.
#![tactic(auto)]

mod components;
mod fault;
mod gathering;
mod quarter_figures;
mod side;
mod span;
mod tally;
mod weighed;

pub use components::extreme_of;
pub use fault::UnreportedSlot;
pub use gathering::figures_of;
pub use quarter_figures::Figures;
pub use side::{Activation, Manual, Side, Totals};
pub use span::Span;
