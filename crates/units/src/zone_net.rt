// The net demand of the price zone in whole kW, up positive.
ghost use Rattle.std.specs.Prelude.{◌≡◌, ◌≤◌, unsigned_abs};
ghost use Rattle.units.specs.declared.bounds.TheConstants.{MOST_ZONE_KW};

use crate::bounds::{MOST_ZONE_KW, OutOfBounds};
use crate::quantity::{Quantity, within};

#[derive(Clone, Copy, PartialEq, Eq)]
pub struct ZoneNet {
    pub(crate) kw: i32,
    ghost bounded: { unsigned_abs kw ≤ MOST_ZONE_KW },
}

impl ZoneNet {
    ghost use Rattle.units.specs.Quantities.{no_net};

    /// The net of a zone of which nothing is told.
    pub fn zero() -> ZoneNet
        ensures { result ≡ no_net }
    {
        ZoneNet { kw: 0 }
    }

    pub fn kw(self) -> i64
        ensures { result ≡ self.kw }
    {
        i64::from(self.kw)
    }
}

impl Quantity for ZoneNet {
    ghost use Rattle.units.specs.Quantities.{zone_net_of};

    ghost made = { zone_net_of };

    ghost number_of = { λ n. n.kw };

    fn new(number: i64) -> Result<ZoneNet, OutOfBounds> {
        let kw = within::<MOST_ZONE_KW>(number, OutOfBounds::ZoneNet)?;
        Ok(ZoneNet { kw })
    }

    fn number(self) -> i64 {
        self.kw()
    }
}
