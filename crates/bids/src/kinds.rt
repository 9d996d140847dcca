// The two kinds of bids, each with the merit order of its ladder.
ghost use Rattle.std.specs.Prelude.{◌≡◌};
ghost use Rattle.bids.specs.Bids.{row_of};

use crate::bid::Bid;
use crate::row::BidRow;
use ladders::Item;
use source::Direction;

/// The most bids on a ladder.
pub const MOST_BIDS: usize = 512;

/// An up bid on its ladder: the cheapest stands first, equal prices by lower number.
#[derive(Clone, Copy, Default)]
pub struct UpBid(pub BidRow);

/// A down bid on its ladder: the dearest stands first, equal prices by lower number.
#[derive(Clone, Copy, Default)]
pub struct DownBid(pub BidRow);

impl From<Bid> for UpBid {
    ghost from_gives = { λ b u. u.0 ≡ row_of b };

    fn from(bid: Bid) -> UpBid {
        UpBid(BidRow::from(bid))
    }
}

impl From<Bid> for DownBid {
    ghost from_gives = { λ b d. d.0 ≡ row_of b };

    fn from(bid: Bid) -> DownBid {
        DownBid(BidRow::from(bid))
    }
}

impl Item for UpBid {
    ghost use Rattle.bids.specs.Merit.{up_order};
    ghost use Rattle.bids.specs.laws.Strict.{up_is_strict};
    ghost use Rattle.ladders.specs.laws.Unsaid.{not_by_number};
    ghost use Rattle.std.specs.Prelude.{false};
    ghost use Rattle.bids.specs.declared.kinds.TheConstants.{MOST_BIDS};

    const MOST: usize = MOST_BIDS;

    const BY_NUMBER: bool = false;

    ghost MOST = { MOST_BIDS };

    ghost BY_NUMBER = { false };

    ghost order = { up_order };

    fn number(self) -> u16 {
        self.0.number
    }

    fn is_before(self, other: UpBid) -> bool {
        self.0.stands_before(Direction::Up, other.0)
    }

    ghost is_strict = { up_is_strict };

    ghost goes_by_number = { not_by_number up_order };
}

impl Item for DownBid {
    ghost use Rattle.bids.specs.Merit.{down_order};
    ghost use Rattle.bids.specs.laws.Strict.{down_is_strict};
    ghost use Rattle.ladders.specs.laws.Unsaid.{not_by_number};
    ghost use Rattle.std.specs.Prelude.{false};
    ghost use Rattle.bids.specs.declared.kinds.TheConstants.{MOST_BIDS};

    const MOST: usize = MOST_BIDS;

    const BY_NUMBER: bool = false;

    ghost MOST = { MOST_BIDS };

    ghost BY_NUMBER = { false };

    ghost order = { down_order };

    fn number(self) -> u16 {
        self.0.number
    }

    fn is_before(self, other: DownBid) -> bool {
        self.0.stands_before(Direction::Down, other.0)
    }

    ghost is_strict = { down_is_strict };

    ghost goes_by_number = { not_by_number down_order };
}
