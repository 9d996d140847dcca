// The faults of a sheet: one in a number stands whole in its record's, and that in the sheet's.
ghost use Rattle.std.specs.Prelude.{◌≡◌, Some};
ghost use Rattle.sheet.specs.Faults.{number_spot, number_number, number_place, record_spot, record_number, record_place, fault_number, fault_place, fault_slot, fault_text};
ghost use Rattle.sheet.specs.declared.fault.RecordFault.TheVariants.{Number};
ghost use Rattle.sheet.specs.declared.fault.SheetFault.TheVariants.{Head, Slot};

use source::SLOTS;
use std::fmt;
use units::Refusal;

/// The slot number that is given for a byte of the head, and after the last slot.
pub const HEAD: usize = SLOTS;

/// A place among the sheet's bytes, and the slot that it belongs to.
#[derive(Clone, Copy, Debug)]
pub struct Spot {
    pub place: usize,
    pub slot: usize,
}

/// What is wrong with a number: the sheet ends in it, its form, or its bounds.
#[derive(Clone, Copy, Debug)]
pub enum NumberFault {
    Ends(Spot),
    Form(Spot),
    Bounds(Spot),
}

/// What is wrong with the record of a slot: a number in it, the sheet's end before it, or its lead byte.
#[derive(Clone, Copy, Debug)]
pub enum RecordFault {
    Number(NumberFault),
    Ends(Spot),
    Lead(Spot),
}

/// What is wrong with a sheet, by the first fault from its front.
#[derive(Clone, Copy, Debug)]
pub enum SheetFault {
    Ends { place: usize },
    Opening { place: usize },
    Flag { place: usize },
    Head(NumberFault),
    Slot(RecordFault),
    After { place: usize },
}

impl From<NumberFault> for RecordFault {
    ghost from_gives = { λ e r. r ≡ Number e };

    fn from(number: NumberFault) -> RecordFault {
        RecordFault::Number(number)
    }
}

impl From<NumberFault> for SheetFault {
    ghost from_gives = { λ e r. r ≡ Head e };

    fn from(number: NumberFault) -> SheetFault {
        SheetFault::Head(number)
    }
}

impl From<RecordFault> for SheetFault {
    ghost from_gives = { λ e r. r ≡ Slot e };

    fn from(record: RecordFault) -> SheetFault {
        SheetFault::Slot(record)
    }
}

impl Refusal for NumberFault {
    ghost number = { number_number };

    ghost place = { number_place };

    fn number(self) -> u16 {
        match self {
            NumberFault::Ends(_) => 1,
            NumberFault::Form(_) => 3,
            NumberFault::Bounds(_) => 5,
        }
    }

    fn place(self) -> usize {
        self.spot().place
    }
}

impl NumberFault {
    /// The number's first byte, or the sheet's end.
    pub fn spot(self) -> Spot
        ensures { result ≡ number_spot self }
    {
        match self {
            NumberFault::Ends(spot) | NumberFault::Form(spot) | NumberFault::Bounds(spot) => spot,
        }
    }
}

impl Refusal for RecordFault {
    ghost number = { record_number };

    ghost place = { record_place };

    fn number(self) -> u16 {
        match self {
            RecordFault::Number(fault) => fault.number(),
            RecordFault::Ends(_) => 1,
            RecordFault::Lead(_) => 4,
        }
    }

    fn place(self) -> usize {
        match self {
            RecordFault::Number(fault) => fault.place(),
            RecordFault::Ends(spot) | RecordFault::Lead(spot) => spot.place,
        }
    }
}

impl RecordFault {
    pub fn spot(self) -> Spot
        ensures { result ≡ record_spot self }
    {
        match self {
            RecordFault::Number(fault) => fault.spot(),
            RecordFault::Ends(spot) | RecordFault::Lead(spot) => spot,
        }
    }
}

impl Refusal for SheetFault {
    ghost number = { fault_number };

    ghost place = { fault_place };

    fn number(self) -> u16 {
        match self {
            SheetFault::Ends { .. } => 1,
            SheetFault::Opening { .. } => 2,
            SheetFault::Flag { .. } => 4,
            SheetFault::Head(fault) => fault.number(),
            SheetFault::Slot(fault) => fault.number(),
            SheetFault::After { .. } => 6,
        }
    }

    fn place(self) -> usize {
        match self {
            SheetFault::Ends { place }
            | SheetFault::Opening { place }
            | SheetFault::Flag { place }
            | SheetFault::After { place } => place,
            SheetFault::Head(fault) => fault.place(),
            SheetFault::Slot(fault) => fault.place(),
        }
    }
}

impl SheetFault {
    /// The slot in which the fault stands.
    pub fn slot(self) -> usize
        ensures slot { result ≡ fault_slot self }
        ensures head_is_past_the_slots { HEAD ≡ SLOTS }
    {
        match self {
            SheetFault::Head(fault) => fault.spot().slot,
            SheetFault::Slot(fault) => fault.spot().slot,
            _ => HEAD,
        }
    }
}

/// `! number place`, without the end of a line.
impl fmt::Display for SheetFault {
    ghost output = { λ x. Some (fault_text x) };

    fn fmt<W: fmt::Write>(&self, f: &mut fmt::Formatter<W>) -> fmt::Result {
        let number = self.number();
        let place = self.place();
        write!(f, "! {number} {place}")
    }
}
