// Texts that are read line by line.
use quarter_text::{Problem, TextFault, TextReader, read_quarter, read_quarter_from};
use source::PriceSource;
use std::io::Cursor;
use std::test::Fail;
use words::{nth_word, word_of};

#[test]
fn lines_one_by_one(rt: HostRuntime) -> Result<(), Fail> {
    let mut reader = TextReader::new();
    for line in ["net -5 # kW", "", "avoided 0.50\r", "0-9 5 1.20 -", ""] {
        reader.line(line.as_bytes())?;
    }
    let quarter = reader.finish()?;
    assert_eq!(rt; quarter.zone_net().kw(), -5);
    let demand = quarter.slot(9)?.map(|reading| reading.demand.kw());
    assert_eq!(rt; demand, Some(5));
    Ok(())
}

// The first fault stands, whatever lines follow.
#[test]
fn after_a_refusal(rt: HostRuntime) {
    let mut reader = TextReader::new();
    let fault = TextFault {
        line: 1,
        word: 0,
        problem: Problem::Expected(quarter_text::Part::Avoided),
    };
    assert_eq!(rt; reader.line(b"net 5"), Ok(()));
    assert_eq!(rt; reader.line(b"0-9 5 - -"), Err(fault));
    assert_eq!(rt; reader.line(b"avoided 5"), Err(fault));
    assert!(rt; reader.finish().err() == Some(fault));
}

#[test]
fn words_by_place(rt: HostRuntime) {
    let line = b"\t0-9  5 MWh# 1 2";
    let cases = [
        (0, Some(b"0-9".as_slice())),
        (1, Some(b"5".as_slice())),
        (2, Some(b"MWh".as_slice())),
        (3, None),
        (usize::MAX, None),
    ];
    for (place, word) in cases {
        assert_eq!(rt; nth_word(line, place), word);
    }
}

// The same as of the whole text; and the line that is refused is at hand.
#[test]
fn from_an_input(rt: HostRuntime) -> Result<(), Fail> {
    let cases = [
        ("", ""),
        ("\n", ""),
        ("net 5", ""),
        ("net 5\n", ""),
        ("net 5\navoided -", ""),
        ("net 5\navoided -\n", ""),
        ("net 5\r\navoided 1.000 # \n7 5 - -", "avoided 1.000 # "),
        ("net 5\navoided -\n7 5 - - -", "7 5 - - -"),
        ("\n\nnet\n\n", "net"),
    ];
    for (text, refused) in cases {
        let mut input = Cursor::new(text.as_bytes());
        let mut line = Vec::new(rt.alloc());
        let read = read_quarter_from(&mut input, &mut line)?;
        let fault = read.err();
        assert!(rt; fault == read_quarter(text.as_bytes()).err(), "{text}");
        assert_eq!(rt; line.as_slice(), refused.as_bytes());
        let word = fault.and_then(|fault| word_of(text.as_bytes(), fault));
        let at_hand = fault.and_then(|fault| nth_word(line.as_slice(), fault.word));
        assert_eq!(rt; at_hand, word);
    }
    Ok(())
}
