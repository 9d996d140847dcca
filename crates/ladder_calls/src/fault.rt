// Why a line is no call, and why a call is refused.
ghost use Rattle.std.specs.Prelude.{◌≡◌};
ghost use Rattle.ladder_calls.specs.Refusals.{call_number, call_place};
ghost use Rattle.ladder_calls.specs.declared.fault.CallFault.TheVariants.{Price, Bid, Ladder};

use bids::BidFault;
use ladders::LadderFault;
use units::{OutOfBounds, Refusal};

/// What a line should have had at a word.
#[derive(Clone, Copy, PartialEq, Eq, Debug)]
pub enum Part {
    Call,
    Direction,
    Price,
    Quantity,
    Number,
    End,
}

/// A word of a line that should have been something else.
pub type WordFault = words::WordFault<Part>;

/// A word of a text that should have been something else.
pub type TextFault = words::TextFault<Part>;

/// Why a call is refused: what refuses it has the number and the place.
#[derive(Clone, Copy, PartialEq, Eq, Debug)]
pub enum CallFault {
    /// The price is out of bounds.
    Price(OutOfBounds),
    /// The quantity or the number is.
    Bid(BidFault),
    Ladder(LadderFault),
}

impl From<OutOfBounds> for CallFault {
    ghost from_gives = { λ f c. c ≡ Price f };

    fn from(fault: OutOfBounds) -> CallFault {
        CallFault::Price(fault)
    }
}

impl From<BidFault> for CallFault {
    ghost from_gives = { λ f c. c ≡ Bid f };

    fn from(fault: BidFault) -> CallFault {
        CallFault::Bid(fault)
    }
}

impl From<LadderFault> for CallFault {
    ghost from_gives = { λ f c. c ≡ Ladder f };

    fn from(fault: LadderFault) -> CallFault {
        CallFault::Ladder(fault)
    }
}

impl Refusal for CallFault {
    ghost number = { call_number };

    ghost place = { call_place };

    fn number(self) -> u16 {
        match self {
            CallFault::Price(fault) => fault.number(),
            CallFault::Bid(fault) => fault.number(),
            CallFault::Ladder(fault) => fault.number(),
        }
    }

    fn place(self) -> usize {
        match self {
            CallFault::Price(fault) => fault.place(),
            CallFault::Bid(fault) => fault.place(),
            CallFault::Ladder(fault) => fault.place(),
        }
    }
}
