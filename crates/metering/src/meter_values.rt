// From meter values to the imbalance.
ghost use Rattle.std.specs.Prelude.{◌≡◌, ◌*◌, ◌≤◌, ◌-ℤ◌, length, IfOk, unsigned_abs};
ghost use Rattle.metering.specs.Imbalances.{MostMetered, balanced, imbalance_of, kwh_of, values_of};
ghost use Rattle.metering.specs.Steps.{in_bounds, position_of};
ghost use Rattle.metering.specs.declared.meter_values.TheConstants.{MOST_KWH, MOST_SCHEDULES};

use crate::fault::MeteringFault;
use crate::imbalance::Imbalance;

/// The most kWh, either way, of a schedule, a position, an allocated volume and an adjustment.
pub const MOST_KWH: u64 = 5_000_000;

/// The most trade schedules of a party in a quarter.
pub const MOST_SCHEDULES: usize = 32;

/// The trade schedules of a party, its allocated volume and its adjustment, in whole kWh. Upward delivery
/// is a positive adjustment.
#[derive(Clone, Copy)]
pub struct MeterValues<'a> {
    pub schedules: &'a [i64],
    pub allocated: i64,
    pub adjustment: i64,
}

// A number of the meter values, or its fault where it is out of bounds.
fn bounded(kwh: i64, fault: MeteringFault) -> Result<i64, MeteringFault>
    ensures kwh_in_bounds { result ≡ in_bounds kwh fault }
    ensures bound { IfOk result (λ z. unsigned_abs z ≤ MOST_KWH) }
{
    if kwh.unsigned_abs() <= MOST_KWH {
        Ok(kwh)
    } else {
        Err(fault)
    }
}

// The sum of the schedules, which stays small since each is in bounds; or the first that is not.
fn position_of(schedules: &[i64]) -> Result<i64, MeteringFault>
    requires { length schedules.now ≤ MOST_SCHEDULES }
    ensures sum_or_first_fault { result ≡ position_of schedules.now }
    ensures bound { IfOk result (λ z. unsigned_abs z ≤ MOST_SCHEDULES * MOST_KWH) }
{
    let mut position = 0;
    for (index, schedule) in schedules.iter().enumerate() {
        position += bounded(*schedule, MeteringFault::Schedule { index })?;
    }
    Ok(position)
}

// Allocated less position less adjustment, which fits since each is in bounds.
fn difference(allocated: i64, position: i64, adjustment: i64) -> Imbalance
    requires allocated { unsigned_abs allocated ≤ MOST_KWH }
    requires position { unsigned_abs position ≤ MOST_KWH }
    requires adjustment { unsigned_abs adjustment ≤ MOST_KWH }
    ensures { result.kwh ≡ allocated -ℤ position -ℤ adjustment }
{
    Imbalance {
        kwh: (allocated - position - adjustment) as i32,
    }
}

impl Imbalance {
    /// The imbalance of a party of which nothing is metered.
    pub fn zero() -> Imbalance
        ensures { result ≡ balanced }
    {
        Imbalance { kwh: 0 }
    }

    pub fn kwh(self) -> i64
        ensures { result ≡ self.kwh }
    {
        i64::from(self.kwh)
    }
}

impl MeterValues<'_> {
    /// Allocated less position less adjustment, or the first fault.
    pub fn imbalance(&self) -> Result<Imbalance, MeteringFault>
        ensures imbalance_or_first_fault { kwh_of result ≡ imbalance_of (values_of self.now) }
        ensures most_metered { MostMetered }
    {
        if self.schedules.len() > MOST_SCHEDULES {
            return Err(MeteringFault::TooManySchedules);
        }
        let position = bounded(position_of(self.schedules)?, MeteringFault::Position)?;
        let allocated = bounded(self.allocated, MeteringFault::Allocated)?;
        let adjustment = bounded(self.adjustment, MeteringFault::Adjustment)?;
        Ok(difference(allocated, position, adjustment))
    }
}
