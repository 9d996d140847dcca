// Why something is refused, and where.

/// Each refusal has the number that is printed.
#[derive(Clone, Copy, PartialEq, Eq)]
pub(crate) enum Refusal {
    Ends = 1,
    Opening = 2,
    Form = 3,
    UnknownByte = 4,
    Bounds = 5,
    After = 6,
    Unreported = 7,
    NoAvoided = 8,
    PeriodOutOfRange = 9,
    PartyOutOfRange = 10,
    QuarterClosed = 11,
    QuarterBlank = 12,
    Full = 17,
    Standing = 18,
    NotStanding = 19,
    BidQuantity = 20,
}

impl Refusal {
    pub(crate) fn number(self) -> u16 {
        self as u16
    }

    pub(crate) fn at(self, place: usize) -> Fault {
        Fault {
            refusal: self,
            place,
        }
    }
}

/// A refusal and its place.
#[derive(Clone, Copy, PartialEq, Eq)]
pub(crate) struct Fault {
    pub refusal: Refusal,
    pub place: usize,
}

/// The number and the place of a fault, which both calculations have.
#[derive(Clone, Copy, PartialEq, Eq)]
pub(crate) struct Numbered {
    pub number: u16,
    pub place: usize,
}

impl Numbered {
    /// What a refusal of the library says of itself.
    pub(crate) fn of<F: units::Refusal>(fault: F) -> Numbered {
        Numbered {
            number: fault.number(),
            place: fault.place(),
        }
    }
}

impl From<Fault> for Numbered {
    fn from(fault: Fault) -> Numbered {
        Numbered {
            number: fault.refusal.number(),
            place: fault.place,
        }
    }
}
