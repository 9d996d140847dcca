// A quarter as plain numbers, in bounds or not.

/// The slots of a quarter; the first `CYCLES` are automatic.
pub(crate) const SLOTS: usize = 228;

pub(crate) const CYCLES: usize = 225;

/// The bounds of demand, price and zone net, either way.
pub(crate) const DEMAND: i64 = 10_000_000;

pub(crate) const PRICE: i64 = 9_999_900;

pub(crate) const ZONE_NET: i64 = 100_000_000;

/// Whether a number is at most the bound in size.
pub(crate) fn is_within(number: i64, bound: i64) -> bool {
    number.unsigned_abs() <= bound.unsigned_abs()
}

/// One slot: kW, absent where the slot is unreported, and the prices formed, in cents.
#[derive(Clone, Copy)]
pub(crate) struct Plain {
    pub kw: Option<i64>,
    pub up: Option<i64>,
    pub down: Option<i64>,
}

pub(crate) const UNREPORTED: Plain = Plain {
    kw: None,
    up: None,
    down: None,
};

pub(crate) const IDLE: Plain = Plain {
    kw: Some(0),
    up: None,
    down: None,
};

#[derive(Clone, Copy)]
pub(crate) struct Quarter {
    pub slots: [Plain; SLOTS],
    pub zone_net: i64,
    pub avoided: Option<i64>,
}

impl Plain {
    // A cycle with demand in a direction and no price formed in it takes the avoided value.
    fn filled(self, avoided: Option<i64>) -> Plain {
        match self.kw {
            Some(1..) => Plain {
                up: self.up.or(avoided),
                ..self
            },
            Some(..0) => Plain {
                down: self.down.or(avoided),
                ..self
            },
            _ => self,
        }
    }
}

impl Quarter {
    /// The quarter under the netting fill.
    pub(crate) fn netted(mut self) -> Quarter {
        let avoided = self.avoided;
        for slot in self.slots.iter_mut().take(CYCLES) {
            *slot = slot.filled(avoided);
        }
        self
    }
}
