// Bids of plain numbers, and what is refused.
use bids::{Bid, DownBid, UpBid};
use ladders::{Item, Ladder};
use std::test::Fail;
use units::{Price, Quantity, Refusal};

/// A bid of 5,000 kW.
pub(crate) fn bid(cents: i64, number: i64) -> Result<Bid, Fail> {
    Ok(Bid::new(Price::new(cents)?, 5_000, number)?)
}

pub(crate) fn up(cents: i64, number: i64) -> Result<UpBid, Fail> {
    Ok(UpBid::from(bid(cents, number)?))
}

pub(crate) fn down(cents: i64, number: i64) -> Result<DownBid, Fail> {
    Ok(DownBid::from(bid(cents, number)?))
}

/// Whether the numbers of the items that stand are these, in this order.
pub(crate) fn stand<T: Item>(ladder: &Ladder<'_, T>, numbers: &[u16]) -> bool {
    let mut both = ladder.items().iter().zip(numbers.iter());
    ladder.len() == numbers.len() && both.all(|(item, number)| item.number() == *number)
}

/// Whether an answer is the refusal of this number and place.
pub(crate) fn refused<T: Drop, F: Refusal>(
    answer: Result<T, F>,
    number: u16,
    place: usize,
) -> bool {
    answer.is_err_and(|fault| fault.number() == number && fault.place() == place)
}
