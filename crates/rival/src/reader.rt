// A reader of packed sheets.
use crate::fault::{Fault, Refusal};
use crate::plain::{DEMAND, IDLE, PRICE, Plain, Quarter, SLOTS, UNREPORTED, ZONE_NET, is_within};

#[derive(Drop)]
struct Reader<'a> {
    bytes: &'a [u8],
    at: usize,
}

/// What a sheet tells up to its first fault.
#[derive(Clone, Copy)]
pub(crate) struct Told {
    pub quarter: Quarter,
    pub check: Result<(), Fault>,
}

// 2n for n from 0 on, -2n - 1 below.
fn signed(stored: u64) -> i64 {
    let half = i64::try_from(stored / 2).unwrap_or(0);
    if stored % 2 == 0 {
        half
    } else {
        (-1i64).saturating_sub(half)
    }
}

impl Reader<'_> {
    fn byte(&mut self) -> Result<u8, Fault> {
        let end = Refusal::Ends.at(self.bytes.len());
        let byte = self.bytes.get(self.at).copied().ok_or(end)?;
        self.at = self.at.saturating_add(1);
        Ok(byte)
    }

    fn number(&mut self, bound: i64) -> Result<i64, Fault> {
        let start = self.at;
        let mut stored: u64 = 0;
        let mut unit: u64 = 1;
        let mut last: u8 = 0;
        for _ in 0..4 {
            last = self.byte()?;
            stored = stored.saturating_add(unit.saturating_mul(u64::from(last % 128)));
            if last < 128 {
                break;
            }
            unit = unit.saturating_mul(128);
        }
        if last >= 128 || (last == 0 && unit > 1) {
            return Err(Refusal::Form.at(start));
        }
        let number = signed(stored);
        if !is_within(number, bound) {
            return Err(Refusal::Bounds.at(start));
        }
        Ok(number)
    }

    fn opening(&mut self) -> Result<(), Fault> {
        for (place, wanted) in b"ISP1".iter().enumerate() {
            if self.byte()? != *wanted {
                return Err(Refusal::Opening.at(place));
            }
        }
        Ok(())
    }

    fn demand(&mut self) -> Result<Option<i64>, Fault> {
        self.number(DEMAND).map(Some)
    }

    fn price(&mut self) -> Result<Option<i64>, Fault> {
        self.number(PRICE).map(Some)
    }

    fn avoided(&mut self) -> Result<Option<i64>, Fault> {
        let place = self.at;
        match self.byte()? {
            0 => Ok(None),
            1 => self.price(),
            _ => Err(Refusal::UnknownByte.at(place)),
        }
    }

    fn slot(&mut self) -> Result<Plain, Fault> {
        let place = self.at;
        match self.byte()? {
            0 => Ok(UNREPORTED),
            1 => Ok(Plain {
                kw: self.demand()?,
                ..IDLE
            }),
            2 => Ok(Plain {
                kw: self.demand()?,
                up: self.price()?,
                down: None,
            }),
            3 => Ok(Plain {
                kw: self.demand()?,
                up: None,
                down: self.price()?,
            }),
            4 => Ok(Plain {
                kw: self.demand()?,
                up: self.price()?,
                down: self.price()?,
            }),
            _ => Err(Refusal::UnknownByte.at(place)),
        }
    }

    fn end(&self) -> Result<(), Fault> {
        if self.at < self.bytes.len() {
            return Err(Refusal::After.at(self.at));
        }
        Ok(())
    }

    // Of a head with a fault nothing is told, and of the slots those before the first fault.
    fn tell(&mut self, quarter: &mut Quarter) -> Result<(), Fault> {
        self.opening()?;
        let zone_net = self.number(ZONE_NET)?;
        quarter.avoided = self.avoided()?;
        quarter.zone_net = zone_net;
        for slot in quarter.slots.iter_mut() {
            *slot = self.slot()?;
        }
        self.end()
    }
}

pub(crate) fn read(bytes: &[u8]) -> Told {
    let mut quarter = Quarter {
        slots: [UNREPORTED; SLOTS],
        zone_net: 0,
        avoided: None,
    };
    let mut reader = Reader { bytes, at: 0 };
    let check = reader.tell(&mut quarter);
    Told { quarter, check }
}
