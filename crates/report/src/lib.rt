// What the program prints for a file.
#![tactic(auto)]

mod fault;
mod input;
mod line;
mod pile;

pub use fault::Fault;
pub use input::{ENOUGH, fill};
pub use line::{ROWS, Rates, Report, Told};
