// A bid: a quantity that is offered at a price, under a number.
ghost use Rattle.std.specs.Prelude.{◌≡◌, ◌≤◌};
ghost use Rattle.bids.specs.Numbers.{number_made};
ghost use Rattle.bids.specs.declared.bid.TheConstants.{MOST_QUANTITY};

use crate::fault::BidFault;
use units::Price;

/// The greatest quantity of a bid, in kW; the least is 1.
pub const MOST_QUANTITY: u32 = 10_000_000;

/// A bid, with its quantity in kW.
#[derive(Clone, Copy, PartialEq, Eq)]
pub struct Bid {
    pub price: Price,
    pub kw: u32,
    pub number: u16,
    ghost some_quantity: { 1 ≤ kw },
    ghost bounded_quantity: { kw ≤ MOST_QUANTITY },
}

impl Bid {
    ghost use Rattle.bids.specs.Bids.{BidBounds, as_row, row_made};

    /// A bid of plain numbers. Refused with 20 where the quantity is not from 1 to 10,000,000 kW, then with 5 where the
    /// number is not from 0 to 65,535.
    pub fn new(price: Price, kw: i64, number: i64) -> Result<Bid, BidFault>
        ensures made { as_row result ≡ row_made price kw number }
        ensures numbers { BidBounds }
    {
        if kw < 1 || kw > i64::from(MOST_QUANTITY) {
            return Err(BidFault::Quantity);
        }
        let number = bid_number(number)?;
        Ok(Bid {
            price,
            kw: kw as u32,
            number,
        })
    }
}

/// The number of a bid. Refused with 5 where it is not from 0 to 65,535.
pub fn bid_number(number: i64) -> Result<u16, BidFault>
    ensures { result ≡ number_made number }
{
    u16::try_from(number).map_err(|_| BidFault::Number)
}
