// What is said of a text that is refused.
use crate::energy_text::{Nearest, PowerOf};
use crate::fault::{Part, Problem, TextFault};
use crate::hint::hint;
use std::fmt;
use units::OutOfBounds;
use words::Found;

impl fmt::Display for Part {
    fn fmt<W: fmt::Write>(&self, f: &mut fmt::Formatter<W>) -> fmt::Result {
        match self {
            Part::Net => write!(f, "`net` and the zone net"),
            Part::ZoneNet => write!(f, "the zone net in whole kW"),
            Part::Avoided => write!(f, "`avoided` and the avoided value"),
            Part::AvoidedValue => write!(
                f,
                "the avoided value in euros, with two decimals at most, or -"
            ),
            Part::Slots => write!(
                f,
                "a slot from 0 to 227, a range as 0-74, scheduled, up or down, or others"
            ),
            Part::Demand => write!(
                f,
                "the demand in whole kW, the energy as 12.5 MWh with three decimals at most, or unreported"
            ),
            Part::UpPrice => write!(f, "the up price in euros, with two decimals at most, or -"),
            Part::DownPrice => write!(
                f,
                "the down price in euros, with two decimals at most, or -"
            ),
            Part::Unreported => write!(f, "`unreported`"),
            Part::End => write!(f, "the end of the line"),
        }
    }
}

/// A fault of a text with the word at which it stands, as a line for people.
#[derive(Clone, Copy)]
pub struct Message<'a> {
    pub fault: TextFault,
    pub word: Option<&'a [u8]>,
}

/// What is wrong with a word.
#[derive(Clone, Copy)]
struct Wrong(Problem);

impl fmt::Display for Wrong {
    fn fmt<W: fmt::Write>(&self, f: &mut fmt::Formatter<W>) -> fmt::Result {
        match self.0 {
            Problem::Expected(part) | Problem::Missing(part) => write!(f, "is not {part}"),
            Problem::Bounds(OutOfBounds::Demand) => write!(
                f,
                "is out of bounds: a slot's demand is from -10000000 to 10000000 kW"
            ),
            Problem::Bounds(OutOfBounds::Price) => write!(
                f,
                "is out of bounds: a price is from -99999.00 to 99999.00 euros"
            ),
            Problem::Bounds(OutOfBounds::ZoneNet) => write!(
                f,
                "is out of bounds: a zone net is from -100000000 to 100000000 kW"
            ),
            Problem::NoSuchSlot => write!(f, "is out of bounds: slots are from 0 to 227"),
            Problem::BackwardRange => write!(f, "ends before it begins"),
            Problem::NamedTwice { slot, line } => {
                let line = line.saturating_add(1);
                write!(f, "names slot {slot} again: line {line} names it first")
            }
            Problem::OthersTwice { line } => {
                let line = line.saturating_add(1);
                write!(
                    f,
                    "names the other slots again: line {line} names them first"
                )
            }
            Problem::EnergyBounds(fault) => {
                write!(f, "MWh is {}, out of bounds: ", PowerOf(fault))?;
                write!(f, "a slot's demand is from -10000000 to 10000000 kW, ")?;
                write!(f, "and {}", Nearest(fault))
            }
            Problem::NotWholeKw(fault) => {
                write!(f, "MWh is {}, no whole number: ", PowerOf(fault))?;
                write!(f, "{}", Nearest(fault))
            }
        }
    }
}

impl fmt::Display for Message<'_> {
    fn fmt<W: fmt::Write>(&self, f: &mut fmt::Formatter<W>) -> fmt::Result {
        let line = self.fault.line.saturating_add(1);
        let found = Found(self.word);
        match self.fault.problem {
            Problem::Missing(part) => write!(f, "the text ends without {part}"),
            Problem::Expected(part) => {
                write!(f, "line {line}: expected {part}, found {found}")?;
                match self.word.and_then(|word| hint(self.fault, word)) {
                    Some(hint) => write!(f, " ({hint})"),
                    None => Ok(()),
                }
            }
            problem => write!(f, "line {line}: {found} {}", Wrong(problem)),
        }
    }
}
