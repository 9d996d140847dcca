// What is read of a text.
use crate::texts::{printed, sheet_of, stretched, with_head};
use quarter_text::read_quarter;
use source::PriceSource;
use std::test::Fail;

#[test]
fn energy(rt: HostRuntime) -> Result<(), Fail> {
    let cases = [
        ("0-224 20 MWh - -", 224, 80_000),
        ("0-74 0.5 MWh - -", 0, 6_000),
        ("down -15 MWh - -", 227, -60_000),
        ("scheduled 50.000 MWh - -", 225, 200_000),
        ("0-227 12.8 MWh - -", 227, 12_800),
        ("0-224 0.001 MWh - -", 100, 4),
        ("9 0.001 MWh - -", 9, 900),
        ("0-6 0.007 MWh - -", 6, 900),
        ("9 -0 MWh - -", 9, 0),
    ];
    for (line, slot, kw) in cases {
        let text = with_head(rt.alloc(), line)?;
        let quarter = read_quarter(text.as_bytes())?;
        let demand = quarter.slot(slot)?.map(|reading| reading.demand.kw());
        assert_eq!(rt; demand, Some(kw), "{line}");
    }
    Ok(())
}

// What no line names is idle, or unreported where a line says so, wherever it stands.
#[test]
fn slots_not_named(rt: HostRuntime) -> Result<(), Fail> {
    let heap = rt.alloc();
    let idle = sheet_of(heap, with_head(heap, "0-9 5 1 -\n10-227 0 - -")?.as_bytes())?;
    let unreported = sheet_of(
        heap,
        with_head(heap, "0-9 5 1 -\n10-227 unreported")?.as_bytes(),
    )?;
    let cases = [
        ("0-9 5 1 -", idle.as_slice()),
        ("others unreported\n0-9 5 1 -", unreported.as_slice()),
        ("0-9 5 1 -\nothers unreported", unreported.as_slice()),
        (
            "0-4 5 1 -\n\tothers  unreported # 218\n5-9 5 1 -",
            unreported.as_slice(),
        ),
        (
            "100-227 unreported\nothers unreported\n0-9 5 1 -",
            unreported.as_slice(),
        ),
        (
            "10-227 0 - -\nothers unreported\n0-9 5 1 -",
            idle.as_slice(),
        ),
    ];
    for (lines, wanted) in cases {
        let sheet = sheet_of(heap, with_head(heap, lines)?.as_bytes())?;
        assert!(rt; sheet.as_slice() == wanted, "{lines}");
    }
    Ok(())
}

// The same quarter in other layouts.
#[test]
fn layouts(rt: HostRuntime) -> Result<(), Fail> {
    let plain = sheet_of(rt.alloc(), b"net -5\navoided 0.50\n0-9 5 1.20 -\n")?;
    let cases = [
        b"net -5\navoided 0.50\n0-9 5 1.20 -".as_slice(),
        b"\n\n# A comment\nnet -5 # kW\n\navoided 0.50#\n\t\n0-9 5 1.20 -\n\n#".as_slice(),
        b"net -5\r\navoided 0.50\r\n0-9 5 1.20 -\r\n".as_slice(),
        b"\tnet\t-5\t\navoided  0.50 \n \r0-9 \t 5\r1.20  -".as_slice(),
        b"net -0005\navoided 0.5\n000-009 0005 00001.2 -".as_slice(),
        b"net -5\navoided 000.50\n5-9 5 1.2 -\n4 5 1.2 -\n0-3 5 1.2 -".as_slice(),
        b"net -5 #\xff\xfe \0\navoided 0.50\n0-9 5 1.20 - # \xc3\xa4\n".as_slice(),
    ];
    for text in cases {
        let sheet = sheet_of(rt.alloc(), text)?;
        assert!(rt; sheet == plain, "{text:?}");
    }
    Ok(())
}

#[test]
fn long_comment(rt: HostRuntime) -> Result<(), Fail> {
    let text = stretched(rt.alloc(), "net 5 #", "# \0ä", b"\xff\navoided 1")?;
    let again = printed(rt.alloc(), text.as_slice())?;
    assert_eq!(rt; again.as_str(), "net 5\navoided 1.00\n");
    Ok(())
}
