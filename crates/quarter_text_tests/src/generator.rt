// Quarters from a fixed sequence of numbers.
use source::{Row, SLOTS};
use units::{OutOfBounds, Price, Quantity, ZoneNet};

/// A linear congruential sequence modulo 2^64.
#[derive(Drop)]
pub(crate) struct Generator {
    state: u64,
}

impl Generator {
    pub(crate) fn new() -> Generator {
        Generator { state: 20_261_127 }
    }

    // A number below `sides`, from the upper 31 bits.
    fn roll(&mut self, sides: u64) -> u64 {
        self.state = self
            .state
            .wrapping_mul(6_364_136_223_846_793_005)
            .wrapping_add(1_442_695_040_888_963_407);
        (self.state >> 33).checked_rem(sides).unwrap_or(0)
    }

    // A bound, next to one, about 0, or anywhere between the bounds.
    fn number(&mut self, bound: i64) -> i64 {
        let sides = bound.unsigned_abs().saturating_add(1);
        let size = match self.roll(6) {
            0 => bound,
            1 => bound.saturating_sub(1),
            2 => 1,
            3 => 0,
            _ => i64::try_from(self.roll(sides)).unwrap_or(0),
        };
        if self.roll(2) == 0 {
            size
        } else {
            size.wrapping_neg()
        }
    }

    fn price(&mut self) -> Option<i64> {
        (self.roll(3) != 0).then(|| self.number(9_999_900))
    }

    // A table has no form for an unreported row but a number out of bounds.
    fn row(&mut self) -> Row {
        let demand = match self.roll(6) {
            0 => return Row::IDLE,
            1 => i64::MAX,
            _ => self.number(10_000_000),
        };
        Row {
            demand,
            up: self.price(),
            down: self.price(),
        }
    }

    /// Rows in runs of up to so many equal ones, by the number of the quarter.
    pub(crate) fn rows(&mut self, number: u64) -> [Row; SLOTS] {
        let longest = number % 40;
        let mut rows = [Row::IDLE; SLOTS];
        let mut row = self.row();
        for place in rows.iter_mut() {
            if self.roll(longest.saturating_add(1)) == 0 {
                row = self.row();
            }
            *place = row;
        }
        rows
    }

    pub(crate) fn zone_net(&mut self) -> Result<ZoneNet, OutOfBounds> {
        ZoneNet::new(self.number(100_000_000))
    }

    pub(crate) fn avoided(&mut self) -> Result<Option<Price>, OutOfBounds> {
        self.price().map(Price::new).transpose()
    }
}
