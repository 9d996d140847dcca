// What stands on a ladder.
ghost use Rattle.std.specs.Prelude.{◌≡◌, ℕ, Bool};
ghost use Rattle.ladders.specs.Orders.{GoesByNumber, Order, IsStrict};

/// An item with a number, of a kind that has an order in which items of different numbers never tie.
pub trait Item: Copy {
    /// The most items of this kind that a ladder holds.
    const MOST: usize;

    /// Whether the order is that of the numbers, so that a number is searched for in it.
    const BY_NUMBER: bool;

    ghost MOST: { ℕ };

    ghost BY_NUMBER: { Bool };

    ghost order: { Order Self };

    /// The number by which the item is known on its ladder.
    fn number(self) -> u16
        ensures { result ≡ order.number self };

    /// Whether this item stands before the other.
    fn is_before(self, other: Self) -> bool
        ensures { result ≡ order.is_before self other };

    ghost is_strict: { IsStrict order };

    ghost goes_by_number: { GoesByNumber BY_NUMBER order };
}
