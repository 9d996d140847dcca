// The words of a line, and what should stand at them.
ghost use Rattle.std.specs.Prelude.{◌≡◌, Ok, length, nat_le, slice_get};
ghost use Rattle.std.specs.Option.{option_map};
ghost use Rattle.units.specs.Chains.{result_and_then};
ghost use Rattle.words.specs.Lines.{bytes_read, end_at, is_word, keyword, number_at, read_number, word_at, words_in};
ghost use Rattle.words.specs.Numerals.{capped, most_decimals};
ghost use Rattle.words.specs.Words.{words_of};

use crate::fault::{WordFault, at_word};
use crate::numeral::Numeral;
use crate::places::Places;
use crate::words::{nth_between_blanks, uncommented};

/// A line without its comment. Its words are counted from 0, and a word is refused for the problem that the caller
/// gives.
#[derive(Clone, Copy)]
pub struct Line<'a> {
    bytes: &'a [u8],
}

impl<'a> Line<'a> {
    /// The line of these bytes.
    pub fn of(bytes: &'a [u8]) -> Line<'a>
        ensures { words_in result ≡ words_of bytes.now }
    {
        Line {
            bytes: uncommented(bytes),
        }
    }

    /// The word there, if there is one.
    pub fn nth(&self, at: usize) -> Option<&'a [u8]>
        ensures { option_map (λ w. w.now) result ≡ slice_get (words_in self.now) at }
    {
        nth_between_blanks(self.bytes, at)
    }

    // Whether no word stands there, nor after it.
    fn ends_at(&self, at: usize) -> bool
        ensures { result ≡ nat_le (length (words_in self.now)) at }
    {
        self.nth(at).is_none()
    }

    /// Whether the line has no words.
    pub fn is_empty(&self) -> bool
        ensures { result ≡ nat_le (length (words_in self.now)) 0 }
    {
        self.ends_at(0)
    }

    /// Whether this very word stands there.
    pub fn has(&self, at: usize, wanted: &[u8]) -> bool
        ensures { result ≡ is_word (words_in self.now) at wanted.now }
    {
        self.nth(at).is_some_and(|word| word == wanted)
    }

    /// The word there. It is refused where the line ends before it.
    pub fn word<P: Copy>(&self, at: usize, expected: P) -> Result<&'a [u8], WordFault<P>>
        ensures { bytes_read result ≡ word_at (words_in self.now) at expected }
    {
        self.nth(at).ok_or(WordFault {
            word: at,
            problem: expected,
        })
    }

    /// Refuses any other word than this one, and the end of the line.
    pub fn keyword<P: Copy>(
        &self,
        at: usize,
        wanted: &[u8],
        expected: P,
    ) -> Result<(), WordFault<P>>
        ensures { result ≡ keyword (words_in self.now) at wanted.now expected }
    {
        if !self.has(at, wanted) {
            return at_word(at, expected);
        }
        Ok(())
    }

    /// Refuses a word there, also one after which others stand.
    pub fn end<P: Copy>(&self, at: usize, expected: P) -> Result<(), WordFault<P>>
        ensures { result ≡ end_at (words_in self.now) at expected }
    {
        if !self.ends_at(at) {
            return at_word(at, expected);
        }
        Ok(())
    }

    /// The number there. A word that is no numeral is refused, and so is the end of the line.
    pub fn numeral<P: Copy>(
        &self,
        at: usize,
        places: Places,
        expected: P,
    ) -> Result<Numeral, WordFault<P>>
        ensures { read_number result ≡ result_and_then (number_at (words_in self.now) at (most_decimals places) expected) (λ n. Ok (capped n)) }
    {
        Numeral::read(self.word(at, expected)?, places).ok_or(WordFault {
            word: at,
            problem: expected,
        })
    }
}
