// An exact price: a fraction of cents per MWh.
ghost use Rattle.std.specs.Prelude.{◌*◌, ◌≤◌, unsigned_abs};
ghost use Rattle.units.specs.declared.bounds.TheConstants.{MOST_CENTS, MOST_DENOMINATOR};

/// `n / d` cents per MWh, of the size of a price at most.
#[derive(Clone, Copy)]
pub struct Ratio {
    pub n: i64,
    pub d: u64,
    ghost divides: { 1 ≤ d },
    ghost bounded_denominator: { d ≤ MOST_DENOMINATOR },
    ghost bounded: { unsigned_abs n ≤ MOST_CENTS * d },
}
