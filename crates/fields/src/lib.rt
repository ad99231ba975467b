// The fields that a file is made of: a tag byte, a length of two bytes, high byte first, and a value.
#![tactic(auto)]

mod fault;
mod field;
mod reading;
mod writing;

pub use fault::Fault;
pub use field::{Field, Kind};
pub use reading::{end, read};
pub use writing::Writer;
