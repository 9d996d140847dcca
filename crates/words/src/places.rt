// How many decimals a numeral may have.
ghost use Rattle.std.specs.Prelude.{◌≡◌, ◌≤◌};
ghost use Rattle.words.specs.Numerals.{most_decimals};

/// The decimals that a numeral may have; its number counts units of the last of them.
#[derive(Clone, Copy, PartialEq, Eq, Debug)]
pub enum Places {
    Whole,
    Two,
    Three,
}

impl Places {
    pub(crate) fn most_decimals(self) -> usize
        ensures most { result ≡ most_decimals self }
        ensures high { result ≤ 3 }
    {
        match self {
            Places::Whole => 0,
            Places::Two => 2,
            Places::Three => 3,
        }
    }
}
