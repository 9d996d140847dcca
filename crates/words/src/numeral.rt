// Numerals: digits, a point, decimals, and a minus sign.
ghost use Rattle.std.specs.Prelude.{◌≡◌, ◌≤◌};
ghost use Rattle.words.specs.declared.decimal.TheConstants.{READ_AT_MOST};

use crate::decimal::unsigned_numeral;
use crate::places::Places;

/// A number of so many units, the last decimal being one.
#[derive(Clone, Copy)]
pub struct Numeral {
    pub negative: bool,
    /// At most `READ_AT_MOST`.
    pub size: u64,
    ghost small: { size ≤ READ_AT_MOST },
}

impl Numeral {
    ghost use Rattle.std.specs.Option.{option_map};
    ghost use Rattle.words.specs.Numerals.{capped, integer_of, most_decimals, number_of, numeral};

    /// The number that a word writes; nothing where the word is no numeral, or has more decimals.
    pub fn read(word: &[u8], places: Places) -> Option<Numeral>
        ensures { option_map number_of result ≡ option_map capped (numeral (most_decimals places) word.now) }
    {
        let (negative, size) = match word {
            [b'-', size @ ..] => (true, size),
            _ => (false, word),
        };
        let size = unsigned_numeral(size, places.most_decimals())?;
        Some(Numeral { negative, size })
    }

    /// The number with its sign.
    pub fn value(self) -> i64
        ensures { result ≡ integer_of (number_of self) }
    {
        if self.negative {
            -(self.size as i64)
        } else {
            self.size as i64
        }
    }
}
