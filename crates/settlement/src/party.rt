// A balance party of the book.
ghost use Rattle.std.specs.Prelude.{◌≡◌, ◌≤◌, length, replicate, unsigned_abs};
ghost use Rattle.metering.specs.Imbalances.{balanced};
ghost use Rattle.settlement.specs.Known.{nothing};
ghost use Rattle.settlement.specs.declared.book.TheConstants.{MOST_PERIODS};
ghost use Rattle.settlement.specs.declared.party.TheConstants.{MOST_PAID};

use crate::book::MOST_PERIODS;
use metering::Imbalance;
use units::Amount;

// The most cents, either way, that a party was paid in all: more than its imbalances can come to.
const MOST_PAID: u64 = 15_000_000_000_000;

/// A party's imbalance in each quarter, and what it was paid so far.
#[derive(Clone, Copy)]
pub(crate) struct Party {
    pub(crate) imbalances: [Imbalance; MOST_PERIODS],
    pub(crate) paid: Amount,
    ghost places: { MOST_PERIODS ≤ length imbalances },
    ghost payments: { unsigned_abs paid.cents ≤ MOST_PAID },
}

impl Party {
    // A party of which nothing is metered, and that was paid nothing.
    pub(crate) fn blank() -> Party
        ensures unmetered { result.imbalances ≡ replicate MOST_PERIODS balanced }
        ensures unpaid { result.paid ≡ nothing }
    {
        Party {
            imbalances: [Imbalance::zero(); MOST_PERIODS],
            paid: Amount { cents: 0 },
        }
    }
}
