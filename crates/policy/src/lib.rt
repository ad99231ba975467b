#![tactic(auto)]

mod ending;
mod exact;
mod fault;
mod free;
mod meaning;
mod pair;
mod ring;
mod round;
mod rows;
mod slice;
mod worked;

pub use ending::window;
pub use exact::Exact;
pub use fault::Fault;
pub use free::Free;
pub use meaning::Policy;
pub use pair::Pair;
pub use ring::Ring;
pub use slice::Slice;
pub use worked::worked_promises;
