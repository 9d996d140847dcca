// The most bytes of a sheet and of its parts.
use source::SLOTS;

/// The most bytes of a number.
pub const NUMBER_BYTES: usize = 4;

/// The most bytes of the avoided value: its flag and a price.
pub const AVOIDED_BYTES: usize = 1 + NUMBER_BYTES;

/// The most bytes of a record: its lead byte, a demand and two prices.
pub const RECORD_BYTES: usize = 1 + 3 * NUMBER_BYTES;

/// The most bytes of a head: the opening, which has four, the zone net and the avoided value.
pub const HEAD_BYTES: usize = 4 + NUMBER_BYTES + AVOIDED_BYTES;

/// The most bytes of a sheet.
pub const SHEET_BYTES: usize = HEAD_BYTES + SLOTS * RECORD_BYTES;
