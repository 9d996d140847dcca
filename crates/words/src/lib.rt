// The lines, words and numbers of a plain text, and the place of a fault in it.
#![tactic(auto)]

mod decimal;
mod fault;
mod found;
mod input;
mod line;
mod numeral;
mod places;
mod words;

pub use decimal::{READ_AT_MOST, digits, first_at};
pub use fault::{TextFault, WordFault, at_word};
pub use found::Found;
pub use input::next_line;
pub use line::Line;
pub use numeral::Numeral;
pub use places::Places;
pub use words::{nth_word, word_of};
