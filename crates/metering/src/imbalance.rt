// The imbalance of a party in a quarter, in whole kWh.
ghost use Rattle.std.specs.Prelude.{◌≤◌, unsigned_abs};
ghost use Rattle.metering.specs.declared.imbalance.TheConstants.{MOST_IMBALANCE};

use crate::meter_values::MOST_KWH;

/// The most kWh, either way, of an imbalance.
pub const MOST_IMBALANCE: u64 = 3 * MOST_KWH;

/// Positive where the party has a surplus. It is made from an allocated volume, a position and an adjustment.
#[derive(Clone, Copy, PartialEq, Eq)]
pub struct Imbalance {
    pub(crate) kwh: i32,
    ghost bounded: { unsigned_abs kwh ≤ MOST_IMBALANCE },
}
