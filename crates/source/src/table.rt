// A source over rows of plain numbers.
ghost use Rattle.std.specs.Prelude.{◌≡◌};
ghost use Rattle.source.specs.Tables.{idle, price_if_any, row_slot, table_meaning};

use crate::price_source::PriceSource;
use crate::slot::{NoSuchSlot, Reading, SLOTS, Slot};
use units::{Demand, OutOfBounds, Price, Quantity, ZoneNet};

/// What telemetry has of a slot: kW, and cents per MWh where a price is formed.
#[derive(Clone, Copy)]
pub struct Row {
    pub demand: i64,
    pub up: Option<i64>,
    pub down: Option<i64>,
}

fn price_if_any(cents: Option<i64>) -> Result<Option<Price>, OutOfBounds>
    ensures { result ≡ price_if_any cents }
{
    cents.map(Price::new).transpose()
}

impl Row {
    /// No demand and no price.
    pub const IDLE: Row = Row {
        demand: 0,
        up: None,
        down: None,
    };

    /// The slot that the row tells: unreported where one of its numbers is out of bounds.
    pub fn slot(self) -> Slot
        ensures { result ≡ row_slot self }
    {
        let demand = Demand::new(self.demand).ok()?;
        let up = price_if_any(self.up).ok()?;
        let down = price_if_any(self.down).ok()?;
        Some(Reading { demand, up, down })
    }

    /// What an idle row tells: a reading with demand 0 and no price.
    pub fn idle_slot() -> Slot
        ensures { result ≡ idle }
    {
        Row::IDLE.slot()
    }
}

/// Rows for the slots from 0 on. Those beyond 228 are not read, and missing ones are unreported.
#[derive(Clone, Copy)]
pub struct Table<'a> {
    pub rows: &'a [Row],
    pub zone_net: ZoneNet,
    pub avoided: Option<Price>,
}

impl PriceSource for Table<'_> {
    ghost means = { λ t. table_meaning t.rows.now t.zone_net t.avoided };

    fn slot(&self, slot: usize) -> Result<Slot, NoSuchSlot> {
        if slot >= SLOTS {
            return Err(NoSuchSlot { slot });
        }
        Ok(self.rows.get(slot).and_then(|row| row.slot()))
    }

    fn zone_net(&self) -> ZoneNet {
        self.zone_net
    }

    fn avoided(&self) -> Option<Price> {
        self.avoided
    }
}
