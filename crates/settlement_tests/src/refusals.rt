// Each refusal in its order, and a book that a refused call left as it was.
use crate::calls::{meter, price, price_at, refused};
use metering::MeterValues;
use settlement::{Book, CountFault, Quarter};
use source::SLOTS;
use std::test::Fail;
use units::Refusal;

fn not_started(periods: usize, parties: usize, count: CountFault) -> bool {
    let started = Book::start(periods, parties);
    count.number() == 14 && started.is_err_and(|fault| fault == count)
}

#[test]
fn counts(rt: HostRuntime) {
    let cases = [
        (0, 0, CountFault::Periods),
        (101, 33, CountFault::Periods),
        (1, 0, CountFault::Parties),
        (100, 33, CountFault::Parties),
    ];
    for (periods, parties, count) in cases {
        assert!(rt;
            not_started(periods, parties, count),
            "{periods}, {parties}"
        );
    }
    assert!(rt; CountFault::Periods.place() == 0 && CountFault::Parties.place() == 1);
    assert!(rt; Book::start(1, 1).is_ok());
    assert!(rt; Book::start(100, 32).is_ok());
}

// 9, 11, 7, 8
#[test]
fn pricing(rt: HostRuntime) -> Result<(), Fail> {
    let mut book = Book::start(2, 1)?;
    assert!(rt; refused(price(&mut book, 2, 9, None), 9, 2));
    assert!(rt; refused(price(&mut book, 1, 9, None), 7, 9));
    assert!(rt; refused(price(&mut book, 1, SLOTS, None), 8, 228));
    assert!(rt; matches!(book.quarter(1)?, Quarter::Blank));
    price_at(&mut book, 1, 700)?;
    assert!(rt; refused(price(&mut book, 1, 9, None), 7, 9));
    assert!(rt; matches!(book.quarter(1)?, Quarter::Priced(_)));
    book.close(1)?;
    assert!(rt; refused(price(&mut book, 1, 9, None), 11, 1));
    let Quarter::Closed(quote) = book.quarter(1)? else {
        return Err(Fail::new("the quarter is not closed"));
    };
    assert!(rt; quote.code == 5 && quote.price.cents() == 700);
    Ok(())
}

fn values(schedules: &[i64], allocated: i64, adjustment: i64) -> MeterValues<'_> {
    MeterValues {
        schedules,
        allocated,
        adjustment,
    }
}

// 9, 10, 11, and then the values: 13
#[test]
fn metering(rt: HostRuntime) -> Result<(), Fail> {
    let mut book = Book::start(1, 1)?;
    let far = i64::MAX;
    assert!(rt; refused(book.meter(1, 1, &values(&[far; 33], far, far)), 9, 1));
    assert!(rt; refused(book.meter(0, 1, &values(&[far; 33], far, far)), 10, 1));
    assert!(rt; refused(book.meter(0, 0, &values(&[far; 33], far, far)), 13, 32));
    assert!(rt; refused(book.meter(0, 0, &values(&[0, -5_000_001], far, far)), 13, 1));
    assert!(rt; refused(book.meter(0, 0, &values(&[5_000_000, 1], far, far)), 13, 33));
    assert!(rt;
        refused(
            book.meter(0, 0, &values(&[156_250; 32], 5_000_001, far)),
            13,
            34,
        )
    );
    assert!(rt; refused(book.meter(0, 0, &values(&[], 0, -5_000_001)), 13, 35));
    assert!(rt; book.imbalance(0, 0)?.kwh() == 0);
    price_at(&mut book, 0, 100)?;
    meter(&mut book, 0, 0, 7)?;
    book.close(0)?;
    assert!(rt; refused(book.meter(0, 1, &values(&[far; 33], far, far)), 10, 1));
    assert!(rt; refused(book.meter(0, 0, &values(&[far; 33], far, far)), 11, 0));
    assert!(rt; book.imbalance(0, 0)?.kwh() == 7);
    Ok(())
}

// Closing 9, 11, 12; settling 10; questions 9, then 10
#[test]
fn others(rt: HostRuntime) -> Result<(), Fail> {
    let mut book = Book::start(1, 1)?;
    assert!(rt; refused(book.close(1), 9, 1));
    assert!(rt; refused(book.close(0), 12, 0));
    price_at(&mut book, 0, 100)?;
    book.close(0)?;
    assert!(rt; refused(book.close(0), 11, 0));
    assert!(rt; refused(book.settle(1), 10, 1));
    assert!(rt; refused(book.quarter(1), 9, 1));
    assert!(rt; refused(book.imbalance(1, 1), 9, 1));
    assert!(rt; refused(book.imbalance(0, 1), 10, 1));
    assert!(rt; refused(book.payments(1), 10, 1));
    Ok(())
}
