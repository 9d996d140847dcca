// The lines of a text, and the words of a line.
ghost use Rattle.std.specs.Prelude.{◌≡◌, slice_get};
ghost use Rattle.std.specs.Option.{option_map};
ghost use Rattle.words.specs.Words.{between_blanks, is_blank, lines_of, uncommented, word_of, words_of};

use crate::decimal::first_at;
use crate::fault::TextFault;

fn is_blank(byte: u8) -> bool
    ensures { result ≡ is_blank byte }
{
    matches!(byte, b' ' | b'\t' | b'\r')
}

/// A line without its comment, which begins at the first `#`.
pub(crate) fn uncommented(line: &[u8]) -> &[u8]
    ensures { result.now ≡ uncommented line.now }
{
    let end = first_at(line, b'#').unwrap_or(line.len());
    &line[..end]
}

/// The word at a place, counted from 0, of those between blanks, if there is one.
pub(crate) fn nth_between_blanks(bytes: &[u8], place: usize) -> Option<&[u8]>
    ensures { option_map (λ w. w.now) result ≡ slice_get (between_blanks bytes.now) place }
{
    bytes
        .split(|byte| is_blank(*byte))
        .filter(|word| !word.is_empty())
        .nth(place)
}

fn nth_line(text: &[u8], place: usize) -> Option<&[u8]>
    ensures { option_map (λ l. l.now) result ≡ slice_get (lines_of text.now) place }
{
    text.split(|byte| *byte == b'\n').nth(place)
}

/// The word of a line at a place, counted from 0; nothing where the line ends before it.
pub fn nth_word(line: &[u8], place: usize) -> Option<&[u8]>
    ensures { option_map (λ w. w.now) result ≡ slice_get (words_of line.now) place }
{
    nth_between_blanks(uncommented(line), place)
}

/// The word of a text at which a fault stands; nothing where its line ends before it.
pub fn word_of<P: Copy>(text: &[u8], fault: TextFault<P>) -> Option<&[u8]>
    ensures { option_map (λ w. w.now) result ≡ word_of text.now fault.line fault.word }
{
    nth_word(nth_line(text, fault.line)?, fault.word)
}
