// The calls of lines, and the words at which others are none.
use ladder_calls::{BidNumbers, Call, Part, WordFault, read_call};
use source::Direction::{self, Down, Up};

fn adding(direction: Direction, cents: i64, kw: i64, number: i64) -> Call {
    Call::Add(direction, BidNumbers { cents, kw, number })
}

#[test]
fn calls(rt: HostRuntime) {
    let cases = [
        ("add up 35.00 5000 17", adding(Up, 3_500, 5_000, 17)),
        ("add down 35 1 0", adding(Down, 3_500, 1, 0)),
        ("add up 35.5 1 0", adding(Up, 3_550, 1, 0)),
        ("add up -0.05 1 0", adding(Up, -5, 1, 0)),
        ("add up -0 1 -0", adding(Up, 0, 1, 0)),
        ("\tadd  up\t035.0 005 \t007 \r", adding(Up, 3_500, 5, 7)),
        ("add down 1 2 3# withdraw", adding(Down, 100, 2, 3)),
        ("withdraw up 17", Call::Withdraw(Up, 17)),
        (" withdraw\tdown 0 # the last\r", Call::Withdraw(Down, 0)),
    ];
    for (line, call) in cases {
        assert!(rt; read_call(line.as_bytes()) == Ok(Some(call)), "{line}");
    }
}

// What is out of all bounds is read all the same, and what is greater than 10^12 as that.
#[test]
fn numbers_out_of_bounds(rt: HostRuntime) {
    let most = 1_000_000_000_000;
    let cases = [
        ("add up 100000 -1 70000", adding(Up, 10_000_000, -1, 70_000)),
        (
            "add up 10000000000 1000000000000 1000000000001",
            adding(Up, most, most, most),
        ),
        (
            "add down -99999999999999999999.99 99999999999999999999 0",
            adding(Down, -most, most, 0),
        ),
        (
            "withdraw up -99999999999999999999",
            Call::Withdraw(Up, -most),
        ),
    ];
    for (line, call) in cases {
        assert!(rt; read_call(line.as_bytes()) == Ok(Some(call)), "{line}");
    }
}

#[test]
fn lines_without_words(rt: HostRuntime) {
    for line in ["", "\r", " \t \r", "#", "# add up 1 1 1", " \t# a comment"] {
        assert!(rt; read_call(line.as_bytes()) == Ok(None), "{line}");
    }
}

#[test]
fn no_calls(rt: HostRuntime) {
    let cases = [
        ("Add up 35 5 7", 0, Part::Call),
        ("addup 35 5 7", 0, Part::Call),
        ("up 35 5 7", 0, Part::Call),
        ("add", 1, Part::Direction),
        ("add Up 35 5 7", 1, Part::Direction),
        ("withdraw 17", 1, Part::Direction),
        ("add up", 2, Part::Price),
        ("add up - 5 7", 2, Part::Price),
        ("add up +35 5 7", 2, Part::Price),
        ("add up 35,5 5 7", 2, Part::Price),
        ("add up 35.005 5 7", 2, Part::Price),
        ("add up 35", 3, Part::Quantity),
        ("add up 35 5.0 7", 3, Part::Quantity),
        ("add up 35 5 MW 7", 4, Part::Number),
        ("withdraw up # 17", 2, Part::Number),
        ("withdraw up all", 2, Part::Number),
        ("add up 35 5 7 8", 5, Part::End),
        ("withdraw down 17 18", 3, Part::End),
    ];
    for (line, word, problem) in cases {
        let fault = WordFault { word, problem };
        assert_eq!(rt; read_call(line.as_bytes()).err(), Some(fault), "{line}");
    }
}
