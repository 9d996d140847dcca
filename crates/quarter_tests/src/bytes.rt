// A writer of sheets for the tests, apart from the library.
use lines::lines_of;
use pricing::Terms;
use std::alloc::{AllocError, Global};

/// The direction of a slot's one price, with the lead byte that tells it.
#[derive(Clone, Copy)]
pub(crate) enum Formed {
    Up = 2,
    Down = 3,
}

#[derive(Drop)]
pub(crate) struct Bytes {
    pub sheet: Vec<u8>,
}

impl Bytes {
    pub(crate) fn new(heap: Global, front: &[u8]) -> Result<Bytes, AllocError> {
        Ok(Bytes {
            sheet: Vec::from_slice(heap, front)?,
        })
    }

    /// The opening, the zone net and the avoided value.
    pub(crate) fn head(
        heap: Global,
        zone_net: i32,
        avoided: Option<i32>,
    ) -> Result<Bytes, AllocError> {
        let mut bytes = Bytes::new(heap, b"ISP1")?;
        bytes.number(zone_net)?;
        bytes.byte(u8::from(avoided.is_some()))?;
        if let Some(cents) = avoided {
            bytes.number(cents)?;
        }
        Ok(bytes)
    }

    /// A front and so many zero bytes.
    pub(crate) fn zeros(heap: Global, front: &[u8], count: usize) -> Result<Bytes, AllocError> {
        let mut bytes = Bytes::new(heap, front)?;
        bytes.sheet.resize(front.len().saturating_add(count), 0)?;
        Ok(bytes)
    }

    pub(crate) fn byte(&mut self, byte: u8) -> Result<(), AllocError> {
        self.sheet.push(byte)?;
        Ok(())
    }

    pub(crate) fn number(&mut self, n: i32) -> Result<(), AllocError> {
        let double = 2 * i64::from(n).unsigned_abs();
        let mut rest = if n < 0 { double - 1 } else { double };
        for _ in 0..5 {
            if rest < 128 {
                return self.byte((rest % 128) as u8);
            }
            self.byte((rest % 128 + 128) as u8)?;
            rest /= 128;
        }
        Ok(())
    }

    /// So many slots with no demand and no price.
    pub(crate) fn idle(&mut self, slots: usize) -> Result<(), AllocError> {
        for _ in 0..slots {
            self.byte(1)?;
            self.number(0)?;
        }
        Ok(())
    }

    /// So many slots with one demand and one price.
    pub(crate) fn priced(
        &mut self,
        formed: Formed,
        slots: usize,
        demand: i32,
        cents: i32,
    ) -> Result<(), AllocError> {
        for _ in 0..slots {
            self.byte(formed as u8)?;
            self.number(demand)?;
            self.number(cents)?;
        }
        Ok(())
    }

    /// What is printed of the sheet under the terms.
    pub(crate) fn printed_under(&self, terms: Terms) -> Result<String, AllocError> {
        let lines = lines_of(self.sheet.as_slice(), terms);
        format!(in *self.sheet.allocator(); "{lines}")
    }

    /// What the program prints of the sheet.
    pub(crate) fn printed(&self) -> Result<String, AllocError> {
        self.printed_under(Terms::Alone)
    }
}
