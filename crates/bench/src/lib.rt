// The bench, where a policy shares the run of a graph, and the call that carries the guarantee.
#![tactic(auto)]

mod bench;
mod call;
mod calls;
mod following;
mod report;
mod sharing;
mod worked;

pub use bench::Bench;
pub use call::{Answer, Call};
pub use following::{follow, follow_exact};
pub use rates::{Fault, LAST_TICK, Rate, Sample, promised_rate, unhindered_rate};
pub use report::Report;
pub use runs::times;
pub use worked::worked_ring;
