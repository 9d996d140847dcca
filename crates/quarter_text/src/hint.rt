// What is likely to be meant where a line has something else.
use crate::fault::{Part, Problem, TextFault};
use words::{Numeral, Places, first_at};

/// The byte order mark of UTF-8.
const BYTE_ORDER_MARK: [u8; 3] = [0xef, 0xbb, 0xbf];

// Digits on both sides of a comma.
fn has_decimal_comma(word: &[u8]) -> bool {
    let Some(comma) = first_at(word, b',') else {
        return false;
    };
    let before = word[..comma].last();
    let after = word[comma + 1..].first();
    before.is_some_and(|byte| byte.is_ascii_digit())
        && after.is_some_and(|byte| byte.is_ascii_digit())
}

// The unit of energy, in letters of another size, or without its hour.
fn is_nearly_mwh(word: &[u8]) -> bool {
    word != b"MWh".as_slice()
        && (word.eq_ignore_ascii_case(b"MWh") || word.eq_ignore_ascii_case(b"MW"))
}

fn ends_with_mwh(word: &[u8]) -> bool {
    word.len() > 3 && word[word.len() - 3..].eq_ignore_ascii_case(b"MWh")
}

/// A hint for whoever wrote this word where something else is expected.
pub(crate) fn hint(fault: TextFault, word: &[u8]) -> Option<&'static str> {
    let Problem::Expected(part) = fault.problem else {
        return None;
    };
    match part {
        Part::Net if fault.line == 0 && word.starts_with(&BYTE_ORDER_MARK) => {
            Some("the text begins with a byte order mark, which is to be left out")
        }
        Part::AvoidedValue | Part::Demand | Part::UpPrice | Part::DownPrice
            if has_decimal_comma(word) => { Some("decimals are written with a point") }
        Part::Demand if Numeral::read(word, Places::Three).is_some() => {
            Some("energy has its unit after it, MWh")
        }
        Part::Demand if ends_with_mwh(word) => Some("MWh is a word of its own"),
        Part::UpPrice if is_nearly_mwh(word) => Some("the unit is MWh"),
        Part::UpPrice | Part::End if word.eq_ignore_ascii_case(b"kW") => {
            Some("a number of kW has no unit after it")
        }
        _ => None,
    }
}
