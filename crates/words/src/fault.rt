// Where a text goes wrong, and why.
ghost use Rattle.std.specs.Prelude.{◌≡◌};
ghost use Rattle.words.specs.Faults.{at_word, fault_in};

/// A word of a line, counted from 0, and why it is refused.
#[derive(Clone, Copy, PartialEq, Eq, Debug)]
pub struct WordFault<P> {
    pub word: usize,
    pub problem: P,
}

/// A word of a text, by its line and its place in the line, both counted from 0, and why it is refused.
#[derive(Clone, Copy, PartialEq, Eq, Debug)]
pub struct TextFault<P> {
    pub line: usize,
    pub word: usize,
    pub problem: P,
}

/// The refusal of the word at this place, counted from 0.
pub fn at_word<T, P: Copy>(word: usize, problem: P) -> Result<T, WordFault<P>>
    ensures { result ≡ at_word word problem }
{
    Err(WordFault { word, problem })
}

impl<P: Copy> WordFault<P> {
    /// The fault in the line of this number, counted from 0.
    pub fn in_line(self, line: usize) -> TextFault<P>
        ensures { result ≡ fault_in line self }
    {
        TextFault {
            line,
            word: self.word,
            problem: self.problem,
        }
    }
}
