// The answers of calls and what stands then, as they are printed.
use bids::{DownBid, UpBid};
use ladder_calls::{AnswerLine, BidLadders, read_call};
use std::alloc::Global;
use std::test::Fail;

/// A line, and the line that its call is answered with.
type Case<'a> = (&'a str, &'a str);

// What is printed of these lines: the answers of their calls, and then the bids that stand.
fn printed(
    heap: Global,
    up: &mut [UpBid],
    down: &mut [DownBid],
    cases: &[Case<'_>],
) -> Result<String, Fail> {
    let mut ladders = BidLadders::new(up, down);
    let mut text = String::new(heap);
    for (line, _) in cases {
        if let Some(call) = read_call(line.as_bytes())? {
            let answer = AnswerLine(ladders.call(call));
            text.push_str(format!(in heap; "{answer}")?.as_str())?;
        }
    }
    text.push_str(format!(in heap; "{ladders}")?.as_str())?;
    Ok(text)
}

// What should be printed: the answers as stated, and then these bids.
fn stated(heap: Global, cases: &[Case<'_>], standing: &str) -> Result<String, Fail> {
    let mut text = String::new(heap);
    for (_, answer) in cases {
        text.push_str(answer)?;
        text.push('\n')?;
    }
    text.push_str(standing)?;
    Ok(text)
}

#[test]
fn of_numbers_out_of_bounds(rt: HostRuntime) -> Result<(), Fail> {
    let cases = [
        ("add up 99999.01 0 -1", "! 5 1"),
        ("add down -99999.01 1 1", "! 5 1"),
        ("add up 99999.00 0 -1", "! 20 0"),
        ("add down 1 10000001 65536", "! 20 0"),
        ("add up 1 -1 1", "! 20 0"),
        ("add up 1 10000000 65536", "! 5 3"),
        ("add down 1 1 -1", "! 5 3"),
        ("withdraw up 65536", "! 5 3"),
        ("withdraw down -1", "! 5 3"),
        ("withdraw down 65535", "! 19 65535"),
    ];
    let mut up = [UpBid::default(); 1];
    let mut down = [DownBid::default(); 1];
    let said = printed(rt.alloc(), &mut up, &mut down, &cases)?;
    assert_eq!(rt; said.as_str(), stated(rt.alloc(), &cases, "")?.as_str());
    Ok(())
}

// Numbers are judged before the ladder is asked, and there the bid's number before the places.
#[test]
fn in_the_order_of_the_checks(rt: HostRuntime) -> Result<(), Fail> {
    let cases = [
        ("add up 1 1 7", "added up 7 at 0"),
        ("add up 100000 0 7", "! 5 1"),
        ("add up 0.50 0 7", "! 20 0"),
        ("add up 0.50 1 7", "! 18 7"),
        ("add up 0.50 1 8", "! 17 1"),
        ("add down 0.50 1 7", "added down 7 at 0"),
        ("withdraw up 8", "! 19 8"),
        ("withdraw up 7", "withdrawn up 1.00 1 7"),
        ("withdraw up 7", "! 19 7"),
        ("add up 0.50 2 8", "added up 8 at 0"),
    ];
    let mut up = [UpBid::default(); 1];
    let mut down = [DownBid::default(); 1];
    let said = printed(rt.alloc(), &mut up, &mut down, &cases)?;
    let standing = "up 0.50 2 8\ndown 0.50 1 7\n";
    assert_eq!(rt;
        said.as_str(),
        stated(rt.alloc(), &cases, standing)?.as_str()
    );
    Ok(())
}

#[test]
fn in_merit_order(rt: HostRuntime) -> Result<(), Fail> {
    let cases = [
        ("add up 41 5000 1", "added up 1 at 0"),
        ("add down -0.05 10000000 65535", "added down 65535 at 0"),
        ("add up 35 5000 9", "added up 9 at 0"),
        ("add up 35 5000 3", "added up 3 at 0"),
        ("add up 38.5 1 2", "added up 2 at 2"),
        ("add down -99999 1 0", "added down 0 at 1"),
        ("add down 99999 1 9", "added down 9 at 0"),
        ("withdraw down 0", "withdrawn down -99999.00 1 0"),
    ];
    let mut up = [UpBid::default(); 4];
    let mut down = [DownBid::default(); 4];
    let said = printed(rt.alloc(), &mut up, &mut down, &cases)?;
    let standing =
        "up 35.00 5000 3\nup 35.00 5000 9\nup 38.50 1 2\nup 41.00 5000 1\ndown 99999.00 1 9\ndown -0.05 10000000 65535\n";
    assert_eq!(rt;
        said.as_str(),
        stated(rt.alloc(), &cases, standing)?.as_str()
    );
    Ok(())
}
