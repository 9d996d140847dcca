// A layer over any source: where netting met an automatic demand, the avoided value is its reference price.
ghost use Rattle.std.specs.Prelude.{◌≡◌};
ghost use Rattle.source.specs.Fills.{fill_slot, filled_meaning};

use crate::price_source::PriceSource;
use crate::product::Product;
use crate::slot::{NoSuchSlot, Reading, Slot};
use units::{Price, ZoneNet};

fn fill_slot(avoided: Option<Price>, slot: Slot) -> Slot
    ensures { result ≡ fill_slot avoided slot }
{
    slot.map(|reading| {
        let kw = reading.demand.kw();
        Reading {
            demand: reading.demand,
            up: reading.up.or(avoided.filter(|_| kw > 0)),
            down: reading.down.or(avoided.filter(|_| kw < 0)),
        }
    })
}

/// What the source below tells, with the avoided value as the price of each cycle that has demand in a
/// direction and no price formed in it.
#[derive(Clone, Copy, Drop)]
pub struct NettingFill<S> {
    pub below: S,
}

impl<S: PriceSource> PriceSource for NettingFill<S> {
    ghost means = { λ s. filled_meaning (S.PriceSource.means s.below) };

    fn slot(&self, slot: usize) -> Result<Slot, NoSuchSlot> {
        let told = self.below.slot(slot)?;
        match Product::try_from(slot) {
            Ok(Product::Automatic) => Ok(fill_slot(self.below.avoided(), told)),
            _ => Ok(told),
        }
    }

    fn zone_net(&self) -> ZoneNet {
        self.below.zone_net()
    }

    fn avoided(&self) -> Option<Price> {
        self.below.avoided()
    }
}
