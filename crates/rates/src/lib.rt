// The rate that a run comes to: of a graph's unhindered run, and of the run that a policy promises.
#![tactic(auto)]

mod agreement;
mod fault;
mod promised;
mod rate;
mod sample;

pub use agreement::lowest_differing;
pub use fault::Fault;
pub use promised::promised_rate;
pub use rate::{LAST_TICK, Rate, unhindered_rate};
pub use sample::Sample;
