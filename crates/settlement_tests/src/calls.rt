// Calls with plain numbers.
use metering::{Imbalance, MeterValues};
use pricing::Finnish;
use settlement::{Book, BookFault, Quarter};
use source::{Row, SLOTS, Table};
use units::{Price, Quantity, Refusal, ZoneNet};

/// Prices a quarter of so many idle slots at the avoided value, where there is one.
pub(crate) fn price(
    book: &mut Book,
    period: usize,
    slots: usize,
    cents: Option<i64>,
) -> Result<Quarter, BookFault> {
    let rows = [Row::IDLE; SLOTS];
    let table = Table {
        rows: &rows[..slots.min(SLOTS)],
        zone_net: ZoneNet::zero(),
        avoided: cents.and_then(|cents| Price::new(cents).ok()),
    };
    book.price(period, &table, &Finnish)
}

/// Files a price.
pub(crate) fn price_at(book: &mut Book, period: usize, cents: i64) -> Result<Quarter, BookFault> {
    price(book, period, SLOTS, Some(cents))
}

/// Meters an allocated volume alone.
pub(crate) fn meter(
    book: &mut Book,
    period: usize,
    party: usize,
    kwh: i64,
) -> Result<Imbalance, BookFault> {
    let values = MeterValues {
        schedules: &[],
        allocated: kwh,
        adjustment: 0,
    };
    book.meter(period, party, &values)
}

/// Whether a call was refused with this number at this place.
pub(crate) fn refused<T: Drop>(answer: Result<T, BookFault>, number: u16, place: usize) -> bool {
    answer.is_err_and(|fault| fault.number() == number && fault.place() == place)
}
