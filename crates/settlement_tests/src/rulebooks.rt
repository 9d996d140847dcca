// A book whose quarters are priced with and without the incentive component, with payments worked by hand.
use crate::calls::{meter, refused};
use pricing::{Finnish, Incentive, Quote, QuoteDirection};
use settlement::Book;
use source::{Row, SLOTS, Table};
use std::test::Fail;
use units::{OutOfBounds, Price, Quantity, ZoneNet};

const WITH_INCENTIVE: Incentive<Finnish> = Incentive { below: Finnish };

fn rows(automatic: Row, scheduled: Row) -> [Row; SLOTS] {
    let mut rows = [automatic; SLOTS];
    rows[225] = scheduled;
    rows[226] = Row::IDLE;
    rows[227] = Row::IDLE;
    rows
}

// 15:00 of the Finnish note, 20 MWh of automatic demand at 100.00 and 50 MWh of manual energy at 50.00: 64.29.
fn upward() -> [Row; SLOTS] {
    let automatic = Row {
        demand: 80_000,
        up: Some(10_000),
        down: None,
    };
    let scheduled = Row {
        demand: 200_000,
        up: Some(5_000),
        down: None,
    };
    rows(automatic, scheduled)
}

// 15:15, downward: 20 MWh at 20.00 and 30 MWh at 40.00, so 32.00.
fn downward() -> [Row; SLOTS] {
    let automatic = Row {
        demand: -80_000,
        up: None,
        down: Some(2_000),
    };
    let scheduled = Row {
        demand: -120_000,
        up: Some(4_000),
        down: Some(4_000),
    };
    rows(automatic, scheduled)
}

fn table(rows: &[Row], zone_net: i64, avoided: i64) -> Result<Table<'_>, OutOfBounds> {
    Ok(Table {
        rows,
        zone_net: ZoneNet::new(zone_net)?,
        avoided: Some(Price::new(avoided)?),
    })
}

fn is_quote(quote: Option<Quote>, code: u16, direction: QuoteDirection, cents: i64) -> bool {
    quote.is_some_and(|quote| {
        quote.code == code && quote.direction == direction && quote.price.cents() == cents
    })
}

// 1,000 kWh at 64.29 and 1,000 kWh at the avoided value of 90.00: 64.29 + 90.00 EUR.
#[test]
fn one_quarter_under_each(rt: HostRuntime) -> Result<(), Fail> {
    let rows = upward();
    let told = table(&rows, 200_000, 9_000)?;
    let mut book = Book::start(2, 1)?;
    book.price(0, &told, &Finnish)?;
    book.price(1, &told, &WITH_INCENTIVE)?;
    let [first, second] = [book.quarter(0)?.quote(), book.quarter(1)?.quote()];
    assert!(rt; is_quote(first, 5, QuoteDirection::Up, 6_429));
    assert!(rt; is_quote(second, 15, QuoteDirection::Up, 9_000));
    meter(&mut book, 0, 0, 1_000)?;
    meter(&mut book, 1, 0, 1_000)?;
    book.close(0)?;
    assert!(rt; book.settle(0)?.cents == 15_429);
    book.close(1)?;
    assert!(rt; book.settle(0)?.cents == 0);
    assert!(rt; book.payments(0)?.cents == 15_429);
    assert!(rt; is_quote(book.quarter(1)?.quote(), 15, QuoteDirection::Up, 9_000));
    Ok(())
}

// 2,000 kWh at 64.29, then at 90.00, and again at 64.29: each settling pays the difference, 51.42 EUR.
#[test]
fn priced_again_under_the_other(rt: HostRuntime) -> Result<(), Fail> {
    let rows = upward();
    let told = table(&rows, 200_000, 9_000)?;
    let mut book = Book::start(1, 1)?;
    meter(&mut book, 0, 0, 2_000)?;
    book.price(0, &told, &Finnish)?;
    assert!(rt; book.settle(0)?.cents == 12_858);
    book.price(0, &told, &WITH_INCENTIVE)?;
    assert!(rt; book.settle(0)?.cents == 5_142);
    assert!(rt; is_quote(book.quarter(0)?.quote(), 15, QuoteDirection::Up, 9_000));
    book.price(0, &told, &Finnish)?;
    assert!(rt; book.settle(0)?.cents == -5_142);
    assert!(rt; is_quote(book.quarter(0)?.quote(), 5, QuoteDirection::Up, 6_429));
    book.close(0)?;
    assert!(rt; refused(book.price(0, &told, &WITH_INCENTIVE), 11, 0));
    assert!(rt; book.settle(0)?.cents == 0);
    assert!(rt; book.payments(0)?.cents == 12_858);
    Ok(())
}

// A party that is short pays: 500 kWh at 32.00, and at the avoided value of 25.00, to which the price is lowered. Under
// the same code 15 a quarter without demand is avoided, at 7.00.
#[test]
fn lowered_and_avoided(rt: HostRuntime) -> Result<(), Fail> {
    let rows = downward();
    let told = table(&rows, -400_000, 2_500)?;
    let mut book = Book::start(3, 1)?;
    book.price(0, &told, &Finnish)?;
    book.price(1, &told, &WITH_INCENTIVE)?;
    let idle = [Row::IDLE; SLOTS];
    book.price(2, &table(&idle, 0, 700)?, &WITH_INCENTIVE)?;
    for period in 0..3 {
        meter(&mut book, period, 0, -500)?;
    }
    assert!(rt; is_quote(book.quarter(0)?.quote(), 5, QuoteDirection::Down, 3_200));
    assert!(rt; is_quote(book.quarter(1)?.quote(), 15, QuoteDirection::Down, 2_500));
    assert!(rt; is_quote(book.quarter(2)?.quote(), 15, QuoteDirection::Avoided, 700));
    assert!(rt; book.settle(0)?.cents == -3_200);
    Ok(())
}
