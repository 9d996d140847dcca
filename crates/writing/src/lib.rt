// Writing a source as a packed sheet.
#![tactic(auto)]

mod number;
mod sheet_writer;
mod short_buffer;
mod slot_writer;

pub use sheet_writer::{sheet_len, sheet_vec, write_sheet};
pub use short_buffer::ShortBuffer;
