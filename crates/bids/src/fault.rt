// Why plain numbers make no bid.
ghost use Rattle.bids.specs.Numbers.{refusal_number, refusal_place};

use units::Refusal;

#[derive(Clone, Copy, PartialEq, Eq, Debug)]
pub enum BidFault {
    /// The quantity is out of bounds.
    Quantity,
    /// The bid's number is out of bounds.
    Number,
}

impl Refusal for BidFault {
    ghost number = { refusal_number };

    ghost place = { refusal_place };

    fn number(self) -> u16 {
        match self {
            BidFault::Quantity => 20,
            BidFault::Number => 5,
        }
    }

    fn place(self) -> usize {
        match self {
            BidFault::Quantity => 0,
            BidFault::Number => 3,
        }
    }
}
