// A writer of packed sheets. It writes any number of 28 bits, also out of bounds.
use crate::plain::{Plain, Quarter};
use std::alloc::{AllocError, Global};

#[derive(Drop)]
struct Writer {
    bytes: Vec<u8>,
}

impl Writer {
    fn number(&mut self, number: i64) -> Result<(), AllocError> {
        let double = number.unsigned_abs().saturating_mul(2);
        let mut rest = if number < 0 {
            double.saturating_sub(1)
        } else {
            double
        };
        for _ in 0..4 {
            let low = (rest % 128) as u8;
            rest /= 128;
            if rest == 0 {
                self.bytes.push(low)?;
                return Ok(());
            }
            self.bytes.push(low | 128)?;
        }
        Ok(())
    }

    fn number_if_any(&mut self, number: Option<i64>) -> Result<(), AllocError> {
        number.map_or(Ok(()), |number| self.number(number))
    }

    fn slot(&mut self, slot: &Plain) -> Result<(), AllocError> {
        let lead = match (slot.kw, slot.up, slot.down) {
            (None, _, _) => 0,
            (_, None, None) => 1,
            (_, _, None) => 2,
            (_, None, _) => 3,
            _ => 4,
        };
        self.bytes.push(lead)?;
        let Some(kw) = slot.kw else {
            return Ok(());
        };
        self.number(kw)?;
        self.number_if_any(slot.up)?;
        self.number_if_any(slot.down)
    }
}

/// The sheet of a quarter.
pub(crate) fn sheet_of(heap: Global, quarter: &Quarter) -> Result<Vec<u8>, AllocError> {
    let bytes = Vec::from_slice(heap, b"ISP1")?;
    let mut writer = Writer { bytes };
    writer.number(quarter.zone_net)?;
    writer.bytes.push(u8::from(quarter.avoided.is_some()))?;
    writer.number_if_any(quarter.avoided)?;
    for slot in quarter.slots.iter() {
        writer.slot(slot)?;
    }
    Ok(writer.bytes)
}
