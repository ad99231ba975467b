// The run of a graph from one end of a firing to the next. Only the crates of this layer call these; they keep what each asks for.
#![tactic(auto)]

mod course;
mod gathering;
mod list;
mod moves;
mod moving;
mod plan;
mod planning;
mod store;

pub use course::Course;
pub use plan::Plan;
