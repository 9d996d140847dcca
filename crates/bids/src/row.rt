// A bid as plain numbers, as a ladder's memory holds it.
ghost use Rattle.std.specs.Prelude.{◌≡◌};
ghost use Rattle.bids.specs.Bids.{row_of};
ghost use Rattle.bids.specs.Merit.{stands_before};

use crate::bid::Bid;
use source::Direction;

/// A price in cents per MWh, a quantity in kW and a bid's number, which need not be in the bounds of a bid: by default
/// all are 0, as in a memory in which no bid stood yet.
#[derive(Clone, Copy, PartialEq, Eq, Debug, Default)]
pub struct BidRow {
    pub cents: i32,
    pub kw: u32,
    pub number: u16,
}

impl From<Bid> for BidRow {
    ghost from_gives = { λ b r. r ≡ row_of b };

    fn from(bid: Bid) -> BidRow {
        BidRow {
            cents: bid.price.cents() as i32,
            kw: bid.kw,
            number: bid.number,
        }
    }
}

impl BidRow {
    /// Whether it stands before the other in the merit order of a direction.
    pub(crate) fn stands_before(self, direction: Direction, other: BidRow) -> bool
        ensures { result ≡ stands_before direction self other }
    {
        if self.cents == other.cents {
            return self.number < other.number;
        }
        match direction {
            Direction::Up => self.cents < other.cents,
            Direction::Down => other.cents < self.cents,
        }
    }
}
