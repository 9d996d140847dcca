// What is said of texts that are refused: one for each problem, and for each part that a line should have.
use crate::texts::{printed, printed_of_lines};
use std::test::Fail;

#[test]
fn of_head_lines(rt: HostRuntime) -> Result<(), Fail> {
    let cases = [
        ("", "the text ends without `net` and the zone net"),
        (
            "net 5\n",
            "the text ends without `avoided` and the avoided value",
        ),
        (
            "\navoided 5",
            "line 2: expected `net` and the zone net, found `avoided`",
        ),
        (
            "net",
            "line 1: expected the zone net in whole kW, found the end of the line",
        ),
        (
            "net 1.5",
            "line 1: expected the zone net in whole kW, found `1.5`",
        ),
        (
            "net 5\nup 0",
            "line 2: expected `avoided` and the avoided value, found `up`",
        ),
        (
            "net 5\navoided 1.000",
            "line 2: expected the avoided value in euros, with two decimals at most, or -, found `1.000`",
        ),
        (
            "net 5 kW",
            "line 1: expected the end of the line, found `kW` (a number of kW has no unit after it)",
        ),
        (
            "net 100000001",
            "line 1: `100000001` is out of bounds: a zone net is from -100000000 to 100000000 kW",
        ),
    ];
    for (text, message) in cases {
        assert_eq!(rt; printed(rt.alloc(), text.as_bytes())?.as_str(), message);
    }
    Ok(())
}

#[test]
fn of_expected_words(rt: HostRuntime) -> Result<(), Fail> {
    let cases = [
        (
            "sched 5 - -",
            "expected a slot from 0 to 227, a range as 0-74, scheduled, up or down, or others, found `sched`",
        ),
        (
            "7 5.5 - -",
            "expected the demand in whole kW, the energy as 12.5 MWh with three decimals at most, or unreported, found `5.5` (energy has its unit after it, MWh)",
        ),
        (
            "7 5 MW -",
            "expected the up price in euros, with two decimals at most, or -, found `MW` (the unit is MWh)",
        ),
        (
            "7 5 -",
            "expected the down price in euros, with two decimals at most, or -, found the end of the line",
        ),
        ("7 5 - - -", "expected the end of the line, found `-`"),
        ("others 5 - -", "expected `unreported`, found `5`"),
        ("others", "expected `unreported`, found the end of the line"),
    ];
    for (line, message) in cases {
        let said = printed_of_lines(rt.alloc(), line)?;
        assert_eq!(rt;
            said.as_str(),
            format!(in rt.alloc(); "line 3: {message}")?.as_str()
        );
    }
    Ok(())
}

#[test]
fn of_other_problems(rt: HostRuntime) -> Result<(), Fail> {
    let cases = [
        (
            "0-74 10000001 - -",
            "`10000001` is out of bounds: a slot's demand is from -10000000 to 10000000 kW",
        ),
        (
            "down 5 - -99999.01",
            "`-99999.01` is out of bounds: a price is from -99999.00 to 99999.00 euros",
        ),
        (
            "0-228 5 - -",
            "`0-228` is out of bounds: slots are from 0 to 227",
        ),
        ("74-0 5 - -", "`74-0` ends before it begins"),
        (
            "0-4 5 - -\n5-9 5 - -\n\n8-20 5 - -",
            "line 6: `8-20` names slot 8 again: line 4 names it first",
        ),
        (
            "up 0 - -\n226 0 - -",
            "line 4: `226` names slot 226 again: line 3 names it first",
        ),
        (
            "5 0 - -\nothers unreported\n\nothers unreported",
            "line 6: `others` names the other slots again: line 4 names them first",
        ),
    ];
    for (lines, message) in cases {
        let said = printed_of_lines(rt.alloc(), lines)?;
        assert!(rt; said.ends_with(message), "{said}");
    }
    Ok(())
}

#[test]
fn of_energy(rt: HostRuntime) -> Result<(), Fail> {
    let cases = [
        (
            "0-6 0.001 MWh - -",
            "`0.001` MWh is 128.571.. kW in each of slots 0 to 6, no whole number: the nearest that can be written are 0 MWh and 0.007 MWh",
        ),
        (
            "0-7 0.001 MWh - -",
            "`0.001` MWh is 112.5 kW in each of slots 0 to 7, no whole number: the nearest that can be written are 0 MWh and 0.002 MWh",
        ),
        (
            "0-15 -0.103 MWh - -",
            "`-0.103` MWh is -5793.75 kW in each of slots 0 to 15, no whole number: the nearest that can be written are -0.1 MWh and -0.104 MWh",
        ),
        (
            "0-226 -20 MWh - -",
            "`-20` MWh is -26666.666.. kW in each of slots 0 to 226, no whole number: the nearest that can be written are -19.998 MWh and -20.001 MWh",
        ),
        (
            "0-10 122.222 MWh - -",
            "`122.222` MWh is 9999981.818.. kW in each of slots 0 to 10, no whole number: the nearest that can be written is 122.221 MWh",
        ),
    ];
    for (line, message) in cases {
        let said = printed_of_lines(rt.alloc(), line)?;
        assert_eq!(rt;
            said.as_str(),
            format!(in rt.alloc(); "line 3: {message}")?.as_str()
        );
    }
    Ok(())
}

#[test]
fn of_energy_out_of_bounds(rt: HostRuntime) -> Result<(), Fail> {
    let cases = [
        (
            "down 2500.001 MWh - -",
            "`2500.001` MWh is 10000004 kW in slot 227, out of bounds: a slot's demand is from -10000000 to 10000000 kW, and the nearest that can be written is 2500 MWh",
        ),
        (
            "0-6 -77.778 MWh - -",
            "`-77.778` MWh is -10000028.571.. kW in each of slots 0 to 6, out of bounds: a slot's demand is from -10000000 to 10000000 kW, and the nearest that can be written is -77.777 MWh",
        ),
        (
            "7 -999999999999.999 MWh - -",
            "`-999999999999.999` MWh is -1000000000000 kW or less in slot 7, out of bounds: a slot's demand is from -10000000 to 10000000 kW, and the nearest that can be written is -11.111 MWh",
        ),
    ];
    for (line, message) in cases {
        let said = printed_of_lines(rt.alloc(), line)?;
        assert_eq!(rt;
            said.as_str(),
            format!(in rt.alloc(); "line 3: {message}")?.as_str()
        );
    }
    Ok(())
}

// The ends of messages on words that are nearly right, and of one at a line's end.
#[test]
fn of_hints(rt: HostRuntime) -> Result<(), Fail> {
    let cases = [
        ("7 5 mwh - -", "or -, found `mwh` (the unit is MWh)"),
        ("7 -5 Mwh - -", "or -, found `Mwh` (the unit is MWh)"),
        ("7 5 mW - -", "or -, found `mW` (the unit is MWh)"),
        (
            "7 5 KW - -",
            "or -, found `KW` (a number of kW has no unit after it)",
        ),
        ("7 5 kWh - -", "or -, found `kWh`"),
        ("7 5 MWh MWh -", "or -, found `MWh`"),
        (
            "7 -12.5 mwh - -",
            "or unreported, found `-12.5` (energy has its unit after it, MWh)",
        ),
        (
            "7 20MWh - -",
            "or unreported, found `20MWh` (MWh is a word of its own)",
        ),
        ("7 mwh - -", "or unreported, found `mwh`"),
        ("7 0.0001 MWh - -", "or unreported, found `0.0001`"),
    ];
    for (line, message) in cases {
        let said = printed_of_lines(rt.alloc(), line)?;
        assert!(rt; said.ends_with(message), "{said}");
    }
    Ok(())
}

#[test]
fn of_hints_on_decimals(rt: HostRuntime) -> Result<(), Fail> {
    let cases = [
        (
            "7 12,5 MWh - -",
            "or unreported, found `12,5` (decimals are written with a point)",
        ),
        (
            "7 5 1,50 -",
            "or -, found `1,50` (decimals are written with a point)",
        ),
        (
            "7 5 - -1,5",
            "or -, found `-1,5` (decimals are written with a point)",
        ),
        ("7 5 100, -", "or -, found `100,`"),
        ("7,5 5 - -", "up or down, or others, found `7,5`"),
        ("7 5 -", "or -, found the end of the line"),
    ];
    for (line, message) in cases {
        let said = printed_of_lines(rt.alloc(), line)?;
        assert!(rt; said.ends_with(message), "{said}");
    }
    Ok(())
}

#[test]
fn of_byte_order_marks(rt: HostRuntime) -> Result<(), Fail> {
    let cases = [
        (
            b"\xef\xbb\xbfnet 5".as_slice(),
            "line 1: expected `net` and the zone net, found `\\xef\\xbb\\xbfnet` (the text begins with a byte order mark, which is to be left out)",
        ),
        (
            b"\xef\xbb\xbf# A comment\nnet 5".as_slice(),
            "line 1: expected `net` and the zone net, found `\\xef\\xbb\\xbf` (the text begins with a byte order mark, which is to be left out)",
        ),
        (
            b"# A comment\n\xef\xbb\xbfnet 5".as_slice(),
            "line 2: expected `net` and the zone net, found `\\xef\\xbb\\xbfnet`",
        ),
    ];
    for (text, message) in cases {
        assert_eq!(rt; printed(rt.alloc(), text)?.as_str(), message);
    }
    Ok(())
}

// Bytes that are no visible characters of ASCII are shown by number, and no more than 40 of them.
#[test]
fn of_odd_words(rt: HostRuntime) -> Result<(), Fail> {
    let cases = [
        (
            b"n\xc3\xa4t 5".as_slice(),
            "line 1: expected `net` and the zone net, found `n\\xc3\\xa4t`",
        ),
        (
            b"net \xff".as_slice(),
            "line 1: expected the zone net in whole kW, found `\\xff`",
        ),
        (
            b"\0".as_slice(),
            "line 1: expected `net` and the zone net, found `\\x00`",
        ),
        (
            b"net 5 \xe2\x80\xa8".as_slice(),
            "line 1: expected the end of the line, found `\\xe2\\x80\\xa8`",
        ),
        (
            b"net 1234567890123456789012345678901234567890.".as_slice(),
            "line 1: expected the zone net in whole kW, found `1234567890123456789012345678901234567890..`",
        ),
    ];
    for (text, message) in cases {
        assert_eq!(rt; printed(rt.alloc(), text)?.as_str(), message);
    }
    Ok(())
}
