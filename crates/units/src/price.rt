// A price in whole cents per MWh.
ghost use Rattle.std.specs.Prelude.{◌≡◌, ◌≤◌, unsigned_abs};
ghost use Rattle.units.specs.declared.bounds.TheConstants.{MOST_CENTS};

use crate::bounds::{MOST_CENTS, OutOfBounds};
use crate::quantity::{Quantity, within};

#[derive(Clone, Copy, PartialEq, Eq, PartialOrd, Ord)]
pub struct Price {
    pub(crate) cents: i32,
    ghost bounded: { unsigned_abs cents ≤ MOST_CENTS },
}

impl Price {
    ghost use Rattle.units.specs.Bounds.{BoundNumbers};
    ghost use Rattle.units.specs.Quantities.{lowest_price, highest_price};

    /// The least price there is.
    pub fn lowest() -> Price
        ensures { result ≡ lowest_price }
    {
        Price {
            cents: -(MOST_CENTS as i32),
        }
    }

    /// The greatest.
    pub fn highest() -> Price
        ensures highest { result ≡ highest_price }
        ensures numbers { BoundNumbers }
    {
        Price {
            cents: MOST_CENTS as i32,
        }
    }

    pub fn cents(self) -> i64
        ensures { result ≡ self.cents }
    {
        i64::from(self.cents)
    }
}

impl Quantity for Price {
    ghost use Rattle.units.specs.Quantities.{price_of};

    ghost made = { price_of };

    ghost number_of = { λ p. p.cents };

    fn new(number: i64) -> Result<Price, OutOfBounds> {
        let cents = within::<MOST_CENTS>(number, OutOfBounds::Price)?;
        Ok(Price { cents })
    }

    fn number(self) -> i64 {
        self.cents()
    }
}
