// Texts as they are printed, and quarters there and back.
use crate::generator::Generator;
use crate::texts::{printed, printed_of_lines, sheet_of, with_head};
use quarter_text::quarter_text;
use sheet::Sheet;
use source::Table;
use std::test::Fail;
use units::ZoneNet;
use writing::sheet_vec;

// The quarters of the examples.
#[test]
fn examples(rt: HostRuntime) -> Result<(), Fail> {
    let cases = [
        (
            "net 200000\navoided -\n0-224 20 MWh 100 -\nscheduled 50 MWh 50 -\n",
            "net 200000\navoided -\n0-224 80000 100.00 -\nscheduled 200000 50.00 -\n",
        ),
        (
            "net 400000\navoided -\n0-224 50 MWh 50 -\nscheduled 0 100 -\n",
            "net 400000\navoided -\n0-224 200000 50.00 -\nscheduled 0 100.00 -\n",
        ),
        (
            "net 400000\navoided 50\n0-74 100000 200 -\n75-149 100000 400 -\n150-224 100000 700 -\nscheduled 300000 100 -\nup 100000 1000 -\n",
            "net 400000\navoided 50.00\n0-74 100000 200.00 -\n75-149 100000 400.00 -\n150-224 100000 700.00 -\nscheduled 300000 100.00 -\nup 100000 1000.00 -\n",
        ),
    ];
    for (text, again) in cases {
        assert_eq!(rt; printed(rt.alloc(), text.as_bytes())?.as_str(), again);
        assert_eq!(rt; printed(rt.alloc(), again.as_bytes())?.as_str(), again);
    }
    Ok(())
}

#[test]
fn runs(rt: HostRuntime) -> Result<(), Fail> {
    let cases = [
        ("3 5 - -\n0-2 5 - -\n", "0-3 5 - -\n"),
        ("0 5 - -\n2 5 - -\n", "0 5 - -\n2 5 - -\n"),
        ("0 5 - -\n1 0 - -\n2-9 5 - -\n", "0 5 - -\n2-9 5 - -\n"),
        ("0 unreported\n1-9 unreported\n", "0-9 unreported\n"),
        (
            "7 unreported\n8 1 - -\n9 unreported\n",
            "7 unreported\n8 1 - -\n9 unreported\n",
        ),
        ("200-225 5 1 -\n", "200-224 5 1.00 -\nscheduled 5 1.00 -\n"),
        (
            "225-227 -5 - 1\n",
            "scheduled -5 - 1.00\nup -5 - 1.00\ndown -5 - 1.00\n",
        ),
        ("0-227 0 - -\n", ""),
        ("0 0 0 -\n1 0 - 0\n", "0 0 0.00 -\n1 0 - 0.00\n"),
        (
            "0 5 1 -\n1 5 - 1\n2 5 1 1\n3 -5 1 1\n",
            "0 5 1.00 -\n1 5 - 1.00\n2 5 1.00 1.00\n3 -5 1.00 1.00\n",
        ),
        ("7 -0 -0.05 -0\n", "7 0 -0.05 0.00\n"),
    ];
    for (lines, again) in cases {
        let shown = printed_of_lines(rt.alloc(), lines)?;
        let wanted = with_head(rt.alloc(), again)?;
        assert_eq!(rt; shown.as_str(), wanted.as_str());
    }
    Ok(())
}

// Unreported slots have no line where that saves more than the line that says so, and those for idle slots.
#[test]
fn others(rt: HostRuntime) -> Result<(), Fail> {
    let cases = [
        ("others unreported\n", "others unreported\n"),
        (
            "others unreported\n0-9 5 1 -\n",
            "others unreported\n0-9 5 1.00 -\n",
        ),
        (
            "others unreported\n0-9 5 - -\n10-11 0 - -\n",
            "others unreported\n0-9 5 - -\n10-11 0 - -\n",
        ),
    ];
    for (lines, again) in cases {
        let shown = printed_of_lines(rt.alloc(), lines)?;
        let wanted = with_head(rt.alloc(), again)?;
        assert_eq!(rt; shown.as_str(), wanted.as_str());
        assert_eq!(rt;
            printed(rt.alloc(), wanted.as_bytes())?.as_str(),
            wanted.as_str()
        );
    }
    Ok(())
}

#[test]
fn others_are_printed_where_that_is_shorter(rt: HostRuntime) -> Result<(), Fail> {
    let cases = [
        (
            "others unreported\n0-9 0 - -\ndown 0 - -\n",
            "10-224 unreported\nscheduled unreported\nup unreported\n",
        ),
        (
            "others unreported\nscheduled 0 - -\nup 1 - -\ndown 1 - -\n",
            "0-224 unreported\nup 1 - -\ndown 1 - -\n",
        ),
        (
            "others unreported\n225-227 1 - -\n",
            "0-224 unreported\nscheduled 1 - -\nup 1 - -\ndown 1 - -\n",
        ),
        (
            "others unreported\n226-227 1 - -\n",
            "others unreported\nup 1 - -\ndown 1 - -\n",
        ),
        (
            "others unreported\n226-227 0 - -\n7 1 - -\n",
            "0-6 unreported\n7 1 - -\n8-224 unreported\nscheduled unreported\n",
        ),
        ("others unreported\n0-227 0 - -\n", ""),
    ];
    for (lines, again) in cases {
        let shown = printed_of_lines(rt.alloc(), lines)?;
        let wanted = with_head(rt.alloc(), again)?;
        assert_eq!(rt; shown.as_str(), wanted.as_str());
        assert_eq!(rt;
            printed(rt.alloc(), wanted.as_bytes())?.as_str(),
            wanted.as_str()
        );
    }
    Ok(())
}

// Nothing is reported of a table of no rows.
#[test]
fn nothing_reported(rt: HostRuntime) -> Result<(), Fail> {
    let table = Table {
        rows: &[],
        zone_net: ZoneNet::zero(),
        avoided: None,
    };
    let text = quarter_text(rt.alloc(), &table)?;
    assert_eq!(rt; text.as_str(), "net 0\navoided -\nothers unreported\n");
    Ok(())
}

#[test]
fn there_and_back(rt: HostRuntime) -> Result<(), Fail> {
    let heap = rt.alloc();
    let mut generator = Generator::new();
    for number in 0..2_500 {
        let rows = generator.rows(number);
        let table = Table {
            rows: &rows,
            zone_net: generator.zone_net()?,
            avoided: generator.avoided()?,
        };
        let bytes = sheet_vec(heap, &table)?;
        let sheet = Sheet::read(bytes.as_slice());
        assert!(rt; sheet.check().is_ok(), "sheet {number}");
        let text = quarter_text(heap, &sheet)?;
        let again = sheet_of(heap, text.as_bytes())?;
        assert!(rt; again == bytes, "sheet {number}: {text}");
    }
    Ok(())
}
