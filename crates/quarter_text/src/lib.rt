// A quarter as plain text: read from it, and written to it.
#![tactic(auto)]

mod draft;
mod energy;
mod energy_text;
mod fault;
mod hint;
mod input;
mod line;
mod message;
mod printing;
mod product;
mod quarter;
mod range;
mod reader;
mod reading;

pub use fault::{EnergyFault, Part, Problem, TextFault, WordFault};
pub use input::read_quarter_from;
pub use message::Message;
pub use printing::quarter_text;
pub use quarter::TextQuarter;
pub use reader::TextReader;
pub use reading::read_quarter;
