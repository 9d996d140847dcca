// Payments worked by hand.
use crate::calls::{meter, price_at};
use metering::MeterValues;
use settlement::Book;
use std::test::Fail;

// Half a cent is paid as one cent, and the next half cent as none.
#[test]
fn rounding_does_not_pile_up(rt: HostRuntime) -> Result<(), Fail> {
    let mut book = Book::start(2, 2)?;
    price_at(&mut book, 0, 500)?;
    meter(&mut book, 0, 0, 1)?;
    assert!(rt; book.settle(0)?.cents == 1);
    price_at(&mut book, 1, 500)?;
    meter(&mut book, 1, 0, 1)?;
    assert!(rt; book.settle(0)?.cents == 0);
    assert!(rt; book.payments(0)?.cents == 1);
    meter(&mut book, 0, 1, -1)?;
    assert!(rt; book.settle(1)?.cents == -1);
    meter(&mut book, 1, 1, -1)?;
    assert!(rt; book.settle(1)?.cents == 0);
    Ok(())
}

#[test]
fn whole_amounts(rt: HostRuntime) -> Result<(), Fail> {
    let mut book = Book::start(100, 32)?;
    price_at(&mut book, 99, 5_000)?;
    meter(&mut book, 99, 31, 3_750)?;
    assert!(rt; book.settle(31)?.cents == 18_750);
    price_at(&mut book, 0, 7_000)?;
    meter(&mut book, 0, 0, -25_000)?;
    assert!(rt; book.settle(0)?.cents == -175_000);
    assert!(rt; book.settle(1)?.cents == 0);
    Ok(())
}

// A late value replaces the one before, a new price too, and each is settled over the whole day.
#[test]
fn late_values(rt: HostRuntime) -> Result<(), Fail> {
    let mut book = Book::start(1, 1)?;
    meter(&mut book, 0, 0, 1_000)?;
    assert!(rt; book.settle(0)?.cents == 0);
    price_at(&mut book, 0, 4_000)?;
    assert!(rt; book.settle(0)?.cents == 4_000);
    meter(&mut book, 0, 0, 250)?;
    assert!(rt; book.settle(0)?.cents == -3_000);
    price_at(&mut book, 0, 2_000)?;
    assert!(rt; book.settle(0)?.cents == -500);
    book.close(0)?;
    assert!(rt; book.settle(0)?.cents == 0);
    assert!(rt; book.payments(0)?.cents == 500);
    Ok(())
}

// The imbalance is allocated less position less adjustment.
#[test]
fn imbalances(rt: HostRuntime) -> Result<(), Fail> {
    let mut book = Book::start(1, 1)?;
    let values = MeterValues {
        schedules: &[-900, 5_000_000, -5_000_000],
        allocated: -850,
        adjustment: 30,
    };
    assert!(rt; book.meter(0, 0, &values)?.kwh() == 20);
    let widest = MeterValues {
        schedules: &[-5_000_000],
        allocated: 5_000_000,
        adjustment: -5_000_000,
    };
    assert!(rt; book.meter(0, 0, &widest)?.kwh() == 15_000_000);
    assert!(rt; book.imbalance(0, 0)?.kwh() == 15_000_000);
    Ok(())
}
