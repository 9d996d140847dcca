// Where a text goes wrong, and why.
ghost use Rattle.std.specs.Prelude.{◌≡◌};
ghost use Rattle.quarter_text.specs.Faults.{in_bounds};

use units::OutOfBounds;

/// What a line should have had at a word.
#[derive(Clone, Copy, PartialEq, Eq, Debug)]
pub enum Part {
    Net,
    ZoneNet,
    Avoided,
    AvoidedValue,
    Slots,
    Demand,
    UpPrice,
    DownPrice,
    Unreported,
    End,
}

/// Energy over slots that comes to no demand there, and the nearest energies that come to one. All are sizes, of
/// which the one sign is apart.
#[derive(Clone, Copy, PartialEq, Eq, Debug)]
pub struct EnergyFault {
    pub first: usize,
    pub last: usize,
    pub negative: bool,
    /// The whole W in each slot, and whether there is a part of one more.
    pub watts: u64,
    pub part_more: bool,
    /// The nearest energies in kWh; there may be none above.
    pub below: u64,
    pub above: Option<u64>,
}

/// Why a word is refused.
#[derive(Clone, Copy, PartialEq, Eq, Debug)]
pub enum Problem {
    /// It is not what the line should have there; or the line ends, or goes on.
    Expected(Part),
    /// The text ends without it.
    Missing(Part),
    /// The number is out of bounds.
    Bounds(OutOfBounds),
    /// There is no such slot.
    NoSuchSlot,
    /// The range ends before it begins.
    BackwardRange,
    /// A slot that a line before it names, counted from 0.
    NamedTwice { slot: usize, line: usize },
    /// A line before it, counted from 0, is of the other slots too.
    OthersTwice { line: usize },
    /// The energy comes to more kW than a demand may have.
    EnergyBounds(EnergyFault),
    /// The energy comes to no whole number of kW.
    NotWholeKw(EnergyFault),
}

/// A word of a line that is refused.
pub type WordFault = words::WordFault<Problem>;

/// A word of the text that is refused. Where the text ends too early, the line is the one after its last.
pub type TextFault = words::TextFault<Problem>;

pub(crate) fn in_bounds<Q>(word: usize, made: Result<Q, OutOfBounds>) -> Result<Q, WordFault>
    ensures { result ≡ in_bounds word made }
{
    made.map_err(|beyond| WordFault {
        word,
        problem: Problem::Bounds(beyond),
    })
}
