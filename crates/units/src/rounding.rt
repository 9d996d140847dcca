// Exact prices: the whole ones, their order, and the nearest cent.
ghost use Rattle.std.specs.Prelude.{◌≡◌, ℤ, pos, ◌*ℤ◌, neg_ℤ, ◌≤ℤ◌};
ghost use Rattle.units.specs.Exact.{exact_of, exact_of_price, at_most};
ghost use Rattle.units.specs.Rounding.{rounded, Nearest};

use crate::fraction::Fraction;
use crate::price::Price;
use crate::ratio::Ratio;

impl From<Price> for Ratio {
    ghost from_gives = { λ p r. exact_of r ≡ exact_of_price p };

    fn from(price: Price) -> Ratio {
        Ratio {
            n: price.cents(),
            d: 1,
        }
    }
}

impl Ratio {
    /// Whether the fraction is at most `other`, by cross multiplication.
    pub fn at_most(self, other: Ratio) -> bool
        ensures { result ≡ at_most (exact_of self) (exact_of other) }
    {
        i128::from(self.n) * i128::from(other.d) <= i128::from(other.n) * i128::from(self.d)
    }

    /// The nearest cent, a half going away from zero.
    pub fn nearest_cent(self) -> Price
        ensures rounded { result.cents ≡ rounded self.n self.d }
        ensures nearest { Nearest self.n self.d result.cents }
        ensures only { (z : ℤ) → Nearest self.n self.d z → z ≡ result.cents }
        ensures symmetric { rounded (neg_ℤ self.n) self.d ≡ neg_ℤ result.cents }
        ensures between { (low high : ℤ) → (low *ℤ pos self.d) ≤ℤ self.n → self.n ≤ℤ (high *ℤ pos self.d) → (low ≤ℤ result.cents) × (result.cents ≤ℤ high) }
    {
        let exact = Fraction {
            n: self.n,
            d: self.d,
        };
        Price {
            cents: exact.nearest() as i32,
        }
    }
}
