// Cents printed as euros.
ghost use Rattle.units.specs.Text.{euros};
ghost use Rattle.std.specs.Prelude.{◌≡◌, Some};

use crate::price::Price;
use std::fmt;

/// An amount of cents, shown in euros with two decimals.
#[derive(Clone, Copy)]
pub struct Amount {
    pub cents: i64,
}

impl From<Price> for Amount {
    ghost from_gives = { λ p a. a.cents ≡ p.cents };

    fn from(price: Price) -> Amount {
        Amount {
            cents: price.cents(),
        }
    }
}

impl fmt::Display for Amount {
    ghost output = { λ x. Some (euros x.cents) };

    fn fmt<W: fmt::Write>(&self, f: &mut fmt::Formatter<W>) -> fmt::Result {
        let size = self.cents.unsigned_abs();
        let whole = size / 100;
        let tens = size / 10 % 10;
        let ones = size % 10;
        if self.cents < 0 {
            write!(f, "-{whole}.{tens}{ones}")
        } else {
            write!(f, "{whole}.{tens}{ones}")
        }
    }
}
