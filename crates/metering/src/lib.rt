// What is metered of a balance party in a quarter, and the imbalance that follows from it.
#![tactic(auto)]

mod fault;
mod imbalance;
mod meter_values;

pub use fault::MeteringFault;
pub use imbalance::{Imbalance, MOST_IMBALANCE};
pub use meter_values::{MOST_KWH, MOST_SCHEDULES, MeterValues};
