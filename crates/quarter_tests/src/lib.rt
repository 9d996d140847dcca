// Worked quarters and damaged sheets, each written out as bytes and compared with its printed lines, and rulebooks from
// outside the library.
#![tactic(auto)]

#[cfg(test)]
mod bytes;
#[cfg(test)]
mod incentives;
#[cfg(test)]
mod quarters;
#[cfg(test)]
mod records;
mod reference_price;
#[cfg(test)]
mod refusals;
#[cfg(test)]
mod rulebooks;
mod under_code;

pub use reference_price::Referenced;
pub use under_code::UnderCode;
