// Quantities of a quarter hour. Each lies in its bounds from its making, so no later call checks it again.
#![tactic(auto)]

mod bounds;
mod demand;
mod euros;
mod fraction;
mod price;
mod quantity;
mod ratio;
mod refusal;
mod rounding;
mod zone_net;

pub use bounds::{MOST_CENTS, MOST_DENOMINATOR, MOST_KW, MOST_ZONE_KW, OutOfBounds};
pub use demand::Demand;
pub use euros::Amount;
pub use fraction::Fraction;
pub use price::Price;
pub use quantity::Quantity;
pub use ratio::Ratio;
pub use refusal::Refusal;
pub use zone_net::ZoneNet;
