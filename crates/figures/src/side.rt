// The figures of one direction.
use crate::span::Span;
use units::Price;

/// The demand of a slot that counts: its volume in kW times weight, and the price formed for it.
#[derive(Clone, Copy)]
pub struct Activation {
    pub volume: u64,
    pub price: Price,
}

/// The counting cycles: V, S, and the lowest and the highest of their prices.
#[derive(Clone, Copy)]
pub struct Totals {
    pub volume: u64,
    pub turnover: i64,
    pub span: Option<Span>,
}

/// A manual slot: its volume, 0 unless it counts, and its formed price.
#[derive(Clone, Copy)]
pub struct Manual {
    pub volume: u64,
    pub price: Option<Price>,
}

/// The cycles and the manual slots, and the lowest and the highest price formed in any slot.
#[derive(Clone, Copy)]
pub struct Side {
    pub cycles: Totals,
    pub scheduled: Manual,
    pub direct_up: Manual,
    pub direct_down: Manual,
    pub formed: Option<Span>,
}
