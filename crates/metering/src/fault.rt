// Why meter values give no imbalance.
ghost use Rattle.metering.specs.Refusals.{metering_number, metering_place};

use crate::meter_values::MOST_SCHEDULES;
use units::Refusal;

#[derive(Clone, Copy, PartialEq, Eq, Debug)]
pub enum MeteringFault {
    /// There are more trade schedules than a party can have.
    TooManySchedules,
    /// A trade schedule is out of bounds.
    Schedule { index: usize },
    /// The position, the sum of the schedules, is out of bounds.
    Position,
    /// The allocated volume is out of bounds.
    Allocated,
    /// The adjustment is out of bounds.
    Adjustment,
}

impl Refusal for MeteringFault {
    ghost number = { metering_number };

    ghost place = { metering_place };

    fn number(self) -> u16 {
        13
    }

    fn place(self) -> usize {
        match self {
            MeteringFault::TooManySchedules => MOST_SCHEDULES,
            MeteringFault::Schedule { index } => index,
            MeteringFault::Position => MOST_SCHEDULES + 1,
            MeteringFault::Allocated => MOST_SCHEDULES + 2,
            MeteringFault::Adjustment => MOST_SCHEDULES + 3,
        }
    }
}
