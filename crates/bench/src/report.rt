use crate::bench::Bench;
use policy::Policy;
use rates::{Fault, Rate};

// A bench after its calls, and the rates of its graph's two runs.
#[derive(Drop)]
pub struct Report<'g, P: Policy> {
    pub bench: Bench<'g, P>,
    pub unhindered: Result<Rate, Fault>,
    pub promised: Result<Rate, Fault>,
}
