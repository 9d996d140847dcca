// The three questions to a price source.
ghost use Rattle.std.specs.Prelude.{◌≡◌};
ghost use Rattle.source.specs.Meanings.{Meaning, slot_answer};

use crate::slot::{NoSuchSlot, Slot};
use units::{Price, ZoneNet};

/// Whatever tells the slots of a quarter, its zone net and its avoided value. A question changes nothing.
pub trait PriceSource {
    ghost means: { Self → Meaning };

    fn slot(&self, slot: usize) -> Result<Slot, NoSuchSlot>
        ensures { result ≡ slot_answer (means self.now) slot };

    fn zone_net(&self) -> ZoneNet
        ensures { result ≡ (means self.now).zone };

    fn avoided(&self) -> Option<Price>
        ensures { result ≡ (means self.now).avoided };
}
