// Bounds, tables and the netting fill.
use source::{NettingFill, PriceSource, Row, Table};
use std::test::Fail;
use units::{Demand, Price, Quantity, Refusal, ZoneNet};

/// Whether an answer is the refusal with this number and place.
pub(crate) fn refused<T: Drop, F: Refusal>(
    answer: Result<T, F>,
    number: u16,
    place: usize,
) -> bool {
    answer.is_err_and(|fault| fault.number() == number && fault.place() == place)
}

#[test]
fn bounds(rt: HostRuntime) -> Result<(), Fail> {
    assert!(rt; Demand::new(10_000_000)?.kw() == 10_000_000);
    assert!(rt; Demand::new(-10_000_000)?.kw() == -10_000_000);
    assert!(rt; refused(Demand::new(10_000_001), 5, 0) && refused(Demand::new(-10_000_001), 5, 0));
    assert!(rt; Price::new(9_999_900)?.cents() == 9_999_900);
    assert!(rt; Price::new(-9_999_900)?.cents() == -9_999_900);
    assert!(rt; refused(Price::new(9_999_901), 5, 1) && refused(Price::new(-9_999_901), 5, 1));
    assert!(rt; ZoneNet::new(100_000_000)?.kw() == 100_000_000);
    assert!(rt; ZoneNet::new(-100_000_000)?.kw() == -100_000_000);
    assert!(rt;
        refused(ZoneNet::new(100_000_001), 5, 2) && refused(ZoneNet::new(-100_000_001), 5, 2)
    );
    Ok(())
}

#[test]
fn rows(rt: HostRuntime) {
    let widest = Row {
        demand: 10_000_000,
        up: Some(9_999_900),
        down: Some(-9_999_900),
    };
    assert!(rt; matches!(widest.slot(), Some(_)));
    let beyond = [
        Row {
            demand: -10_000_001,
            ..Row::IDLE
        },
        Row {
            up: Some(9_999_901),
            ..Row::IDLE
        },
        Row {
            down: Some(-9_999_901),
            ..Row::IDLE
        },
        Row {
            demand: i64::MIN,
            up: Some(i64::MAX),
            down: None,
        },
    ];
    for row in beyond {
        assert!(rt; matches!(row.slot(), None));
    }
}

fn table(rows: &[Row], avoided: Option<Price>) -> Table<'_> {
    Table {
        rows,
        zone_net: ZoneNet::zero(),
        avoided,
    }
}

fn up_cents_at<S: PriceSource>(source: &S, slot: usize) -> Option<i64> {
    let reading = source.slot(slot).ok().flatten()?;
    reading.up.map(|price| price.cents())
}

#[test]
fn missing_rows(rt: HostRuntime) {
    let rows = [Row {
        demand: 1,
        up: Some(7),
        down: None,
    }; 3];
    let table = table(&rows, None);
    assert!(rt; matches!(table.slot(2), Ok(Some(_))));
    assert!(rt; matches!(table.slot(3), Ok(None)));
    assert!(rt; matches!(table.slot(227), Ok(None)));
    assert!(rt; refused(table.slot(228), 16, 228));
}

// A cycle with demand and no price takes the avoided value, a manual slot does not, and a fill over a fill adds nothing.
#[test]
fn filled(rt: HostRuntime) -> Result<(), Fail> {
    let rows = [Row {
        demand: 5,
        ..Row::IDLE
    }; 228];
    let fill = NettingFill {
        below: table(&rows, Some(Price::new(4_000)?)),
    };
    let twice = NettingFill { below: fill };
    assert_eq!(rt; up_cents_at(&fill, 0), Some(4_000));
    assert_eq!(rt; up_cents_at(&fill, 224), Some(4_000));
    assert_eq!(rt; up_cents_at(&fill, 225), None);
    assert_eq!(rt; up_cents_at(&twice, 224), Some(4_000));
    let bare = NettingFill {
        below: table(&rows, None),
    };
    assert_eq!(rt; up_cents_at(&bare, 0), None);
    assert!(rt; bare.slot(228).is_err());
    Ok(())
}
