// What is told of one slot of the quarter.
ghost use Rattle.std.specs.Prelude.{◌≡◌};
ghost use Rattle.source.specs.Slots.{formed};
ghost use Rattle.source.specs.Refusals.{slot_number, slot_place};

use crate::direction::Direction;
use units::{Demand, Price, Refusal};

/// The slots of a quarter.
pub const SLOTS: usize = 228;

/// The area's satisfied demand in the slot, and the prices formed for it.
#[derive(Clone, Copy)]
pub struct Reading {
    pub demand: Demand,
    pub up: Option<Price>,
    pub down: Option<Price>,
}

impl Reading {
    /// The price formed in a direction.
    pub fn formed(self, direction: Direction) -> Option<Price>
        ensures { result ≡ formed direction self }
    {
        direction.pick(self.up, self.down)
    }
}

/// A reading, or nothing where the slot is unreported.
pub type Slot = Option<Reading>;

/// A slot number above 227.
#[derive(Clone, Copy, PartialEq, Eq, Debug)]
pub struct NoSuchSlot {
    pub slot: usize,
}

impl Refusal for NoSuchSlot {
    ghost number = { slot_number };

    ghost place = { slot_place };

    fn number(self) -> u16 {
        16
    }

    fn place(self) -> usize {
        self.slot
    }
}
