// Making a quantity from a plain number, and reading it.
ghost use Rattle.std.specs.Prelude.{◌≡◌, ◌≤◌, ℤ, IfOk, Result, unsigned_abs};
ghost use Rattle.units.specs.declared.bounds.TheConstants.{MOST_ZONE_KW};
ghost use Rattle.units.specs.declared.bounds.OutOfBounds.{OutOfBounds};
ghost use Rattle.units.specs.Quantities.{within};

use crate::bounds::OutOfBounds;

/// What can be made from a plain number that lies in its bounds, and is read as that number.
pub trait Quantity: Sized {
    ghost made: { ℤ → Result Self OutOfBounds };

    ghost number_of: { Self → ℤ };

    fn new(number: i64) -> Result<Self, OutOfBounds>
        ensures { result ≡ made number };

    fn number(self) -> i64
        ensures number { result ≡ number_of self }
        ensures bounded { unsigned_abs result ≤ MOST_ZONE_KW };
}

// The number, where its size is at most `LIMIT`.
pub(crate) fn within<const LIMIT: u32>(number: i64, beyond: OutOfBounds) -> Result<i32, OutOfBounds>
    requires { LIMIT ≤ MOST_ZONE_KW }
    ensures judged { result ≡ within LIMIT beyond number }
    ensures unchanged { IfOk result (λ n. n ≡ number) }
{
    if number.unsigned_abs() > u64::from(LIMIT) {
        return Err(beyond);
    }
    Ok(number as i32)
}
