// What is said of the word at which a fault stands.
use std::fmt;

/// The most bytes of a word that are shown.
const SHOWN: usize = 40;

/// The bytes of a word, those that are no visible characters of ASCII by their numbers.
#[derive(Clone, Copy)]
struct Shown<'a>(&'a [u8]);

impl fmt::Display for Shown<'_> {
    fn fmt<W: fmt::Write>(&self, f: &mut fmt::Formatter<W>) -> fmt::Result {
        for byte in self.0.iter().take(SHOWN) {
            if byte.is_ascii_graphic() {
                write!(f, "{}", char::from(*byte))?;
            } else {
                write!(f, "\\x{byte:02x}")?;
            }
        }
        if self.0.len() > SHOWN {
            write!(f, "..")?;
        }
        Ok(())
    }
}

/// What stands where a fault is: a word, of which 40 bytes are shown at most, or the end of the line.
#[derive(Clone, Copy)]
pub struct Found<'a>(pub Option<&'a [u8]>);

impl fmt::Display for Found<'_> {
    fn fmt<W: fmt::Write>(&self, f: &mut fmt::Formatter<W>) -> fmt::Result {
        match self.0 {
            Some(word) => write!(f, "`{}`", Shown(word)),
            None => write!(f, "the end of the line"),
        }
    }
}
