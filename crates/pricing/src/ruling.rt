// What a rulebook decides.
ghost use Rattle.std.specs.Prelude.{◌≡◌};
ghost use Rattle.pricing.specs.Outcomes.{net_of};

use figures::Figures;
use source::Direction;
use units::Ratio;

/// A direction with its exact price.
#[derive(Clone, Copy)]
pub struct DirectedPrice {
    pub direction: Direction,
    pub price: Ratio,
}

/// A direction with its exact price, or nothing where the result is avoided.
pub type Ruling = Option<DirectedPrice>;

/// The net whose sign decides the direction.
#[derive(Clone, Copy, PartialEq, Eq)]
pub enum Net {
    Local,
    Zone,
}

impl Net {
    /// This net of a quarter, in kW.
    pub fn of(self, figures: &Figures) -> i64
        ensures { result ≡ net_of self figures.now }
    {
        match self {
            Net::Local => figures.local_net,
            Net::Zone => figures.zone_net.kw(),
        }
    }
}
