// Exact fractions. A price is at most 9,999,900 cents and all volumes of a quarter at most 9,000,000,000, so a
// numerator stays below 10^17 and a cross product below 10^27: nothing here comes near the limit where it saturates.
ghost use Rattle.std.specs.Prelude.{◌≤◌};

/// `n / d`.
#[derive(Clone, Copy)]
pub(crate) struct Fraction {
    pub n: i128,
    pub d: u64,
    ghost divides: { 1 ≤ d },
}

impl Fraction {
    /// Nothing where `d` is 0.
    pub(crate) fn new(n: i128, d: u64) -> Option<Fraction> {
        if d == 0 {
            None
        } else {
            Some(Fraction { n, d })
        }
    }

    pub(crate) fn whole(n: i64) -> Fraction {
        Fraction {
            n: i128::from(n),
            d: 1,
        }
    }

    /// The higher of two, by cross multiplication.
    fn higher(self, other: Fraction) -> Fraction {
        let own = self.n.saturating_mul(i128::from(other.d));
        if own < other.n.saturating_mul(i128::from(self.d)) {
            other
        } else {
            self
        }
    }

    /// The nearest whole number: half is added to the size, which is then cut, so a half goes away from zero.
    pub(crate) fn nearest(self) -> i64 {
        let d = u128::from(self.d);
        let size = self.n.unsigned_abs().saturating_add(d / 2) / d;
        let cents = i64::try_from(size).unwrap_or(0);
        if self.n < 0 {
            cents.wrapping_neg()
        } else {
            cents
        }
    }
}

/// The higher of those that there are.
pub(crate) fn higher(a: Option<Fraction>, b: Option<Fraction>) -> Option<Fraction> {
    match (a, b) {
        (Some(a), Some(b)) => Some(a.higher(b)),
        _ => a.or(b),
    }
}
