// The refusal of a plain number that is out of bounds.
ghost use Rattle.units.specs.Bounds.{refusal_number, refusal_place};

use crate::refusal::Refusal;

/// The greatest size of a price, in cents per MWh.
pub const MOST_CENTS: u32 = 9_999_900;

/// The greatest size of a demand, in kW.
pub const MOST_KW: u32 = 10_000_000;

/// The greatest size of a zone net, in kW.
pub const MOST_ZONE_KW: u32 = 100_000_000;

/// The greatest denominator of an exact price: the volume of 225 cycles and three manual slots at most, in kW times cycles.
pub const MOST_DENOMINATOR: u64 = 9_000_000_000;

/// Which quantity the number was to be.
#[derive(Clone, Copy, PartialEq, Eq, Debug)]
pub enum OutOfBounds {
    Demand,
    Price,
    ZoneNet,
}

impl Refusal for OutOfBounds {
    ghost number = { refusal_number };

    ghost place = { refusal_place };

    fn number(self) -> u16 {
        5
    }

    fn place(self) -> usize {
        match self {
            OutOfBounds::Demand => 0,
            OutOfBounds::Price => 1,
            OutOfBounds::ZoneNet => 2,
        }
    }
}
