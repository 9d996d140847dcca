// What a price source tells of one quarter hour: its slots, its zone net and its avoided value.
#![tactic(auto)]

mod direction;
mod netting_fill;
mod price_source;
mod product;
mod slot;
mod table;
mod telling;

pub use direction::Direction;
pub use netting_fill::NettingFill;
pub use price_source::PriceSource;
pub use product::{CYCLES, DIRECT_DOWN, DIRECT_UP, ManualProduct, Product, SCHEDULED, weight_of};
pub use slot::{NoSuchSlot, Reading, SLOTS, Slot};
pub use table::{Row, Table};
pub use telling::told;
