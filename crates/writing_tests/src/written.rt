// Sheets written from sources, and read again.
use crate::sources::refused;
use sheet::Sheet;
use source::{NettingFill, PriceSource, Row, Table};
use std::test::Fail;
use units::{Price, Quantity, ZoneNet};
use writing::{sheet_len, sheet_vec, write_sheet};

// A table of no rows has the least sheet but for its head.
#[test]
fn short_buffer(rt: HostRuntime) -> Result<(), Fail> {
    let table = Table {
        rows: &[],
        zone_net: ZoneNet::new(64)?,
        avoided: None,
    };
    assert!(rt; sheet_len(&table) == 235);
    let mut out = [9u8; 234];
    assert!(rt; refused(write_sheet(&table, &mut out), 15, 235));
    assert!(rt; out[0] == 9 && out[233] == 9);
    Ok(())
}

#[test]
fn rest_is_kept(rt: HostRuntime) -> Result<(), Fail> {
    let table = Table {
        rows: &[],
        zone_net: ZoneNet::new(-1)?,
        avoided: Some(Price::new(64)?),
    };
    let mut out = [9u8; 238];
    assert!(rt; matches!(write_sheet(&table, &mut out), Ok(236)));
    assert!(rt; out[0] == b'I' && out[4] == 1 && out[5] == 1);
    assert!(rt; out[6] == 0x80 && out[7] == 1 && out[8] == 0);
    assert!(rt; out[235] == 0 && out[236] == 9 && out[237] == 9);
    Ok(())
}

// Every lead byte, the widest numbers, and a fill over them: written, read, and written again the same.
#[test]
fn round_trip(rt: HostRuntime) -> Result<(), Fail> {
    let mut rows = [Row {
        demand: -10_000_000,
        up: Some(-9_999_900),
        down: Some(9_999_900),
    }; 228];
    rows[0] = Row {
        demand: 10_000_000,
        ..Row::IDLE
    };
    rows[1] = Row {
        demand: 1,
        up: Some(63),
        ..Row::IDLE
    };
    rows[2] = Row {
        demand: -1,
        down: Some(-64),
        ..Row::IDLE
    };
    rows[3] = Row {
        demand: i64::MAX,
        ..Row::IDLE
    };
    let table = Table {
        rows: &rows,
        zone_net: ZoneNet::new(-100_000_000)?,
        avoided: Some(Price::new(1)?),
    };
    let bytes = sheet_vec(rt.alloc(), &NettingFill { below: table })?;
    let sheet = Sheet::read(bytes.as_slice());
    assert!(rt; sheet.check().is_ok() && sheet.zone_net().kw() == -100_000_000);
    let again = sheet_vec(rt.alloc(), &sheet)?;
    assert!(rt; again == bytes);
    Ok(())
}
