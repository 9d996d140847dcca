// A quarter that a text tells, as a price source.
ghost use Rattle.std.specs.Prelude.{◌≡◌};

use source::{NoSuchSlot, PriceSource, SLOTS, Slot};
use units::{Price, ZoneNet};

/// The zone net, the avoided value, and each slot that the text names.
#[derive(Clone, Copy)]
pub struct TextQuarter {
    pub(crate) zone_net: ZoneNet,
    pub(crate) avoided: Option<Price>,
    /// What is told of each slot that the text does not name.
    pub(crate) others: Slot,
    pub(crate) named: [Option<Slot>; SLOTS],
}

impl PriceSource for TextQuarter {
    ghost use Rattle.quarter_text.specs.Quarters.{meaning_of};

    ghost means = { meaning_of };

    fn slot(&self, slot: usize) -> Result<Slot, NoSuchSlot> {
        match self.named.get(slot) {
            Some(named) => Ok(named.unwrap_or(self.others)),
            None => Err(NoSuchSlot { slot }),
        }
    }

    fn zone_net(&self) -> ZoneNet {
        self.zone_net
    }

    fn avoided(&self) -> Option<Price> {
        self.avoided
    }
}
