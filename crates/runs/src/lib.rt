// A run of a graph, tick by tick: what its channels hold and what its actors do.
#![tactic(auto)]

mod firing;
mod run;
mod standing;
mod steps;
mod timing;
mod wires;

pub use firing::Firing;
pub use run::Run;
pub use standing::{Doing, Held, Standing};
pub use steps::{next, reset, step};
pub use timing::times;
