// Division to the nearest whole number.
ghost use Rattle.std.specs.Prelude.{◌≡◌, ◌≤◌};
ghost use Rattle.units.specs.declared.bounds.TheConstants.{MOST_DENOMINATOR};
ghost use Rattle.units.specs.Rounding.{rounded};

/// `n / d`, with a denominator from 1 to 9,000,000,000.
#[derive(Clone, Copy)]
pub struct Fraction {
    pub n: i64,
    pub d: u64,
    ghost divides: { 1 ≤ d },
    ghost bounded_denominator: { d ≤ MOST_DENOMINATOR },
}

impl Fraction {
    /// The nearest whole number, a half going away from zero, by signed division: the remainder has the sign of `n`.
    pub fn nearest(self) -> i64
        ensures { result ≡ rounded self.n self.d }
    {
        let d = self.d as i64;
        let whole = self.n / d;
        let rest = self.n % d;
        if 2 * rest >= d {
            whole + 1
        } else if 2 * rest <= -d {
            whole - 1
        } else {
            whole
        }
    }
}
