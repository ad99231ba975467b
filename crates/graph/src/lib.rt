// A graph: named actors with times, and channels between them; its file, read and written.
#![tactic(auto)]

mod actor;
mod channel;
mod counts;
mod fault;
mod file;
mod graph;
mod head;
mod piece;
mod questions;
mod reading;
mod wiring;
mod writing;

pub use actor::Actor;
pub use channel::Channel;
pub use fault::Fault;
pub use graph::Graph;
