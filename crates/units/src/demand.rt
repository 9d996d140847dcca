// A satisfied demand of the area in whole kW, up positive.
ghost use Rattle.std.specs.Prelude.{◌≡◌, ◌≤◌, unsigned_abs};
ghost use Rattle.units.specs.declared.bounds.TheConstants.{MOST_KW};

use crate::bounds::{MOST_KW, OutOfBounds};
use crate::quantity::{Quantity, within};

#[derive(Clone, Copy, PartialEq, Eq)]
pub struct Demand {
    pub(crate) kw: i32,
    ghost bounded: { unsigned_abs kw ≤ MOST_KW },
}

impl Demand {
    pub fn kw(self) -> i64
        ensures { result ≡ self.kw }
    {
        i64::from(self.kw)
    }
}

impl Quantity for Demand {
    ghost use Rattle.units.specs.Quantities.{demand_of};

    ghost made = { demand_of };

    ghost number_of = { λ d. d.kw };

    fn new(number: i64) -> Result<Demand, OutOfBounds> {
        let kw = within::<MOST_KW>(number, OutOfBounds::Demand)?;
        Ok(Demand { kw })
    }

    fn number(self) -> i64 {
        self.kw()
    }
}
