// The lowest and the highest of some prices.
ghost use Rattle.std.specs.Prelude.{◌≡◌};
ghost use Rattle.figures.specs.steps.Spans.{span_between};

use units::Price;

/// The lowest and the highest of some prices, of which there is at least one.
#[derive(Clone, Copy)]
pub struct Span {
    pub lowest: Price,
    pub highest: Price,
}

// The lowest and the highest, where there was a price: without one they are the bounds of a price, crossed.
pub(crate) fn span_between(lowest: Price, highest: Price) -> Option<Span>
    ensures { result ≡ span_between lowest highest }
{
    if highest.cents() < lowest.cents() {
        return None;
    }
    Some(Span { lowest, highest })
}
