// What a source tells of a slot.
ghost use Rattle.std.specs.Prelude.{◌≡◌, ◌<◌};
ghost use Rattle.source.specs.Telling.{told_of};

use crate::price_source::PriceSource;
use crate::slot::{SLOTS, Slot};

/// What a source tells of a slot; nothing where there is no such slot.
pub fn told<S: PriceSource>(source: &S, slot: usize) -> Slot
    ensures tells { result ≡ told_of (S.PriceSource.means source.now) slot }
    ensures as_meant { slot < SLOTS → result ≡ (S.PriceSource.means source.now).slots slot }
{
    source.slot(slot).ok().flatten()
}
