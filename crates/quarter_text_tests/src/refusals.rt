// Where texts are refused, and why.
use crate::texts::{fault_in, fault_of, stretched};
use quarter_text::EnergyFault;
use quarter_text::Part::{
    self, Avoided, AvoidedValue, DownPrice, End, Net, Slots, Unreported, UpPrice,
};
use quarter_text::Problem::{
    BackwardRange, Bounds, EnergyBounds, Expected, Missing, NamedTwice, NoSuchSlot, NotWholeKw,
    OthersTwice,
};
use std::test::Fail;
use units::OutOfBounds::{Demand, Price, ZoneNet};

#[test]
fn head_lines(rt: HostRuntime) {
    let cases = [
        ("", 1, 0, Missing(Net)),
        ("# only a comment", 1, 0, Missing(Net)),
        ("\n \n", 3, 0, Missing(Net)),
        ("net 5", 1, 0, Missing(Avoided)),
        ("avoided -\nnet 5", 0, 0, Expected(Net)),
        ("0-224 5 - -", 0, 0, Expected(Net)),
        ("Net 5", 0, 0, Expected(Net)),
        ("net\n5", 0, 1, Expected(Part::ZoneNet)),
        ("net -", 0, 1, Expected(Part::ZoneNet)),
        ("net 5 avoided -", 0, 2, Expected(End)),
        ("net 5\nnet 5", 1, 0, Expected(Avoided)),
        ("net 5\n\n0-224 5 - -", 2, 0, Expected(Avoided)),
        ("net 5\navoided", 1, 1, Expected(AvoidedValue)),
        ("net 5\navoided - -", 1, 2, Expected(End)),
        ("net 5\navoided -\navoided -", 2, 0, Expected(Slots)),
        ("net 5\navoided -\nnet 5", 2, 0, Expected(Slots)),
        ("others unreported\nnet 5", 0, 0, Expected(Net)),
        ("net 5\nothers unreported", 1, 0, Expected(Avoided)),
    ];
    for (text, line, word, problem) in cases {
        assert_eq!(rt;
            fault_of(text.as_bytes()),
            Some((line, word, problem)),
            "{text}"
        );
    }
}

#[test]
fn number_of_words(rt: HostRuntime) -> Result<(), Fail> {
    let cases = [
        ("7", 1, Part::Demand),
        ("7 5", 2, UpPrice),
        ("7 5 -", 3, DownPrice),
        ("7 5 - - -", 4, End),
        ("7 unreported -", 2, End),
        ("7 unreported MWh", 2, End),
        ("7 MWh - -", 1, Part::Demand),
        ("7 5 MWh", 3, UpPrice),
        ("7 5 MWh -", 4, DownPrice),
        ("7 5 MWh - - -", 5, End),
        ("7 5 MWh MWh -", 3, UpPrice),
        ("0 - 74 5 - -", 1, Part::Demand),
        ("others", 1, Unreported),
        ("others 5 - -", 1, Unreported),
        ("others 5 MWh - -", 1, Unreported),
        ("others Unreported", 1, Unreported),
        ("others unreported -", 2, End),
    ];
    for (line, word, part) in cases {
        let fault = fault_in(rt.alloc(), line)?;
        assert_eq!(rt; fault, Some((2, word, Expected(part))), "{line}");
    }
    Ok(())
}

#[test]
fn no_numerals(rt: HostRuntime) -> Result<(), Fail> {
    let words = [
        "12.", ".5", ".", "--5", "+5", "1e3", "0x10", "-.5", "5-", "1,5", "1.2.3", "- 5",
    ];
    for word in words {
        let net = format!(in rt.alloc(); "net {word}")?;
        let net = fault_of(net.as_bytes());
        let demand = fault_in(rt.alloc(), format!(in rt.alloc(); "7 {word} - -")?.as_str())?;
        let energy = fault_in(
            rt.alloc(),
            format!(in rt.alloc(); "7 {word} MWh - -")?.as_str(),
        )?;
        assert_eq!(rt; net, Some((0, 1, Expected(Part::ZoneNet))), "{word}");
        assert_eq!(rt; demand, Some((2, 1, Expected(Part::Demand))), "{word}");
        assert_eq!(rt; energy, Some((2, 1, Expected(Part::Demand))), "{word}");
    }
    Ok(())
}

// Three decimals of a price, any of kW, four of MWh.
#[test]
fn decimals(rt: HostRuntime) -> Result<(), Fail> {
    let cases = [
        ("7 5 1.000 -", 2, UpPrice),
        ("7 5 - 12.", 3, DownPrice),
        ("7 5 -- -", 2, UpPrice),
        ("7 5 - +5", 3, DownPrice),
        ("7 5.0 - -", 1, Part::Demand),
        ("7 - - -", 1, Part::Demand),
        ("7 0.5000 MWh - -", 1, Part::Demand),
    ];
    for (line, word, part) in cases {
        let fault = fault_in(rt.alloc(), line)?;
        assert_eq!(rt; fault, Some((2, word, Expected(part))), "{line}");
    }
    Ok(())
}

#[test]
fn slot_words(rt: HostRuntime) -> Result<(), Fail> {
    let cases = [
        ("228", NoSuchSlot),
        ("227-228", NoSuchSlot),
        ("228-0", NoSuchSlot),
        ("123456789012345678901234567890", NoSuchSlot),
        ("5-3", BackwardRange),
        ("3-", Expected(Slots)),
        ("-3", Expected(Slots)),
        ("-", Expected(Slots)),
        ("3-5-7", Expected(Slots)),
        ("3--5", Expected(Slots)),
        ("3-up", Expected(Slots)),
        ("scheduled-227", Expected(Slots)),
        ("Up", Expected(Slots)),
        ("1.0", Expected(Slots)),
        ("+1", Expected(Slots)),
        ("Others", Expected(Slots)),
        ("other", Expected(Slots)),
        ("0-others", Expected(Slots)),
    ];
    for (word, problem) in cases {
        let fault = fault_in(rt.alloc(), format!(in rt.alloc(); "{word} 5 - -")?.as_str())?;
        assert_eq!(rt; fault, Some((2, 0, problem)), "{word}");
    }
    Ok(())
}

// The first slot that is named again, whatever is told of it, and the line that names it first.
#[test]
fn slots_named_twice(rt: HostRuntime) -> Result<(), Fail> {
    let cases = [
        ("7 5 - -\n7 5 - -", 3, 7, 2),
        ("0 0 - -\n0 unreported", 3, 0, 2),
        ("0-74 5 - -\n\n70-80 5 - -", 4, 70, 2),
        ("70-80 5 - -\n0-74 5 - -", 3, 70, 2),
        ("0-227 unreported\n5 5 - -", 3, 5, 2),
        ("scheduled 5 - -\n225 5 - -", 3, 225, 2),
        ("225 5 - -\nscheduled 5 - -", 3, 225, 2),
        ("up 5 - -\ndown 5 - -\n224-227 5 - -", 4, 226, 2),
        ("0 5 - -\n1 5 - -\n\n2 5 - -\n1-3 5 - -", 6, 1, 3),
        ("0 5 - -\nothers unreported\n1 5 - -\n1 5 - -", 5, 1, 4),
    ];
    for (lines, at, slot, line) in cases {
        let fault = fault_in(rt.alloc(), lines)?;
        let problem = NamedTwice { slot, line };
        assert_eq!(rt; fault, Some((at, 0, problem)), "{lines}");
    }
    Ok(())
}

// What is told of slots is refused before they are named again.
#[test]
fn words_before_slots_named_twice(rt: HostRuntime) -> Result<(), Fail> {
    let cases = [
        ("7 5 - -\n7 5 - - -", 4, Expected(End)),
        ("7 5 - -\n7 5 -", 3, Expected(DownPrice)),
        ("7 5 - -\n7 10000001 - -", 1, Bounds(Demand)),
    ];
    for (lines, word, problem) in cases {
        let fault = fault_in(rt.alloc(), lines)?;
        assert_eq!(rt; fault, Some((3, word, problem)), "{lines}");
    }
    Ok(())
}

// Whatever stands between, and after what the second line says; the line that says it first.
#[test]
fn others_twice(rt: HostRuntime) -> Result<(), Fail> {
    let cases = [
        (
            "others unreported\nothers unreported",
            3,
            0,
            OthersTwice { line: 2 },
        ),
        (
            "7 5 - -\n\nothers unreported\n8 5 - -\nothers unreported",
            6,
            0,
            OthersTwice { line: 4 },
        ),
        (
            "others unreported\nothers 5 - -",
            3,
            1,
            Expected(Unreported),
        ),
        (
            "others unreported\nothers unreported -",
            3,
            2,
            Expected(End),
        ),
        (
            "7 5 - -\nothers unreported\n7 unreported",
            4,
            0,
            NamedTwice { slot: 7, line: 2 },
        ),
    ];
    for (lines, line, word, problem) in cases {
        let fault = fault_in(rt.alloc(), lines)?;
        assert_eq!(rt; fault, Some((line, word, problem)), "{lines}");
    }
    Ok(())
}

// Each bound is read, and one more is beyond it.
#[test]
fn bounds(rt: HostRuntime) -> Result<(), Fail> {
    let cases = [
        ("7 10000000 - -", "7 10000001 - -", 1, Demand),
        ("7 -10000000 - -", "7 -10000001 - -", 1, Demand),
        ("7 5 99999 -", "7 5 99999.01 -", 2, Price),
        ("7 5 - -99999.00", "7 5 - -99999.01", 3, Price),
    ];
    for (within, beyond, word, bound) in cases {
        assert_eq!(rt; fault_in(rt.alloc(), within)?, None, "{within}");
        let fault = fault_in(rt.alloc(), beyond)?;
        assert_eq!(rt; fault, Some((2, word, Bounds(bound))), "{beyond}");
    }
    Ok(())
}

#[test]
fn bounds_of_either_sign(rt: HostRuntime) -> Result<(), Fail> {
    for sign in ["", "-"] {
        let widest = format!(in rt.alloc(); "net {sign}100000000\navoided {sign}99999")?;
        assert_eq!(rt; fault_of(widest.as_bytes()), None);
        let beyond = format!(in rt.alloc(); "net {sign}100000001")?;
        let fault = fault_of(beyond.as_bytes());
        assert_eq!(rt; fault, Some((0, 1, Bounds(ZoneNet))));
        let long = "123456789012345678901234567890";
        let longer = format!(in rt.alloc(); "7 5 - {sign}{long}.5")?;
        let fault = fault_in(rt.alloc(), longer.as_str())?;
        assert_eq!(rt; fault, Some((2, 3, Bounds(Price))));
    }
    Ok(())
}

// The slots and the sign of energy, what it comes to, and the nearest energies that can be written.
fn energy(
    slots: (usize, usize),
    negative: bool,
    watts: (u64, bool),
    nearest: (u64, Option<u64>),
) -> EnergyFault {
    EnergyFault {
        first: slots.0,
        last: slots.1,
        negative,
        watts: watts.0,
        part_more: watts.1,
        below: nearest.0,
        above: nearest.1,
    }
}

// One kWh more than the bound, and as much as is read.
#[test]
fn energy_bounds(rt: HostRuntime) -> Result<(), Fail> {
    let cases = [
        (
            "down 2500 MWh - -",
            "down 2500.001 MWh - -",
            energy(
                (227, 227),
                false,
                (10_000_004_000, false),
                (2_500_000, None),
            ),
        ),
        (
            "0-6 -77.777 MWh - -",
            "0-6 -77.778 MWh - -",
            energy((0, 6), true, (10_000_028_571, true), (77_777, None)),
        ),
        (
            "0-227 10000 MWh - -",
            "0-227 123456789012345678901234567890.999 MWh - -",
            energy(
                (0, 227),
                false,
                (1_000_000_000_000_000, false),
                (10_000_000, None),
            ),
        ),
    ];
    for (within, beyond, energy) in cases {
        assert_eq!(rt; fault_in(rt.alloc(), within)?, None, "{within}");
        let fault = fault_in(rt.alloc(), beyond)?;
        assert_eq!(rt; fault, Some((2, 1, EnergyBounds(energy))), "{beyond}");
    }
    Ok(())
}

// The nearest energies are read.
#[test]
fn no_whole_kw(rt: HostRuntime) -> Result<(), Fail> {
    let cases = [
        (
            "0-6 0.001 MWh - -",
            energy((0, 6), false, (128_571, true), (0, Some(7))),
            ["0-6 0 MWh - -", "0-6 0.007 MWh - -"],
        ),
        (
            "0-226 -20 MWh - -",
            energy((0, 226), true, (26_666_666, true), (19_998, Some(20_001))),
            ["0-226 -19.998 MWh - -", "0-226 -20.001 MWh - -"],
        ),
        (
            "0-100 0.5 MWh 1.000 -",
            energy((0, 100), false, (4_455_445, true), (404, Some(505))),
            ["0-100 0.404 MWh - -", "0-100 0.505 MWh - -"],
        ),
        (
            "0-7 0.001 MWh - -",
            energy((0, 7), false, (112_500, false), (0, Some(2))),
            ["0-7 0 MWh - -", "0-7 0.002 MWh - -"],
        ),
        (
            "0-10 122.222 MWh - -",
            energy((0, 10), false, (9_999_981_818, true), (122_221, None)),
            ["0-10 122.221 MWh - -", "0-10 122.221 MWh - -"],
        ),
    ];
    for (line, energy, nearest) in cases {
        let fault = fault_in(rt.alloc(), line)?;
        assert_eq!(rt; fault, Some((2, 1, NotWholeKw(energy))), "{line}");
        for near in nearest {
            assert_eq!(rt; fault_in(rt.alloc(), near)?, None, "{near}");
        }
    }
    Ok(())
}

// A megabyte of one word, of many words, of a comment, and of empty lines.
#[test]
fn long_texts(rt: HostRuntime) -> Result<(), Fail> {
    let heap = rt.alloc();
    let cases = [
        ("net 5\n", "9", 1, 0, Expected(Avoided)),
        ("net ", "9", 0, 1, Bounds(ZoneNet)),
        ("net 5", " 9", 0, 2, Expected(End)),
        ("net 5 #", " #", 1, 2, Expected(End)),
        ("", "\n", 1_000_001, 0, Expected(Net)),
    ];
    for (front, middle, line, word, problem) in cases {
        let text = stretched(heap, front, middle, b"\navoided 5 5")?;
        let fault = fault_of(text.as_slice());
        assert_eq!(rt; fault, Some((line, word, problem)));
    }
    Ok(())
}
