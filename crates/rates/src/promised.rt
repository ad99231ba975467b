// The rate of the promised run.
ghost use Rattle.std.specs.Prelude.{◌≡◌, ℕ};
ghost use Rattle.runs.specs.Seen.{at};
ghost use Rattle.rates.specs.Rated.{PromisedRated};

use crate::agreement::lowest_differing;
use crate::fault::Fault;
use crate::rate::{Rate, rate_with};
use crate::sample::Sample;
use graph::Graph;
use policy::Policy;
use std::array;

// The policy's promises, by actor.
fn promises<P: Policy>(policy: &P) -> [u16; 16]
    ensures { (a : ℕ) → at result a ≡ (P.Policy.view policy.now).promise a }
{
    array::from_fn(|a| policy.promise(a as u8))
}

// The rate of the run with the policy's promises for times, with the caller's rows for its samples.
pub fn promised_rate<P: Policy>(
    graph: &Graph,
    policy: &P,
    rows: &mut [Sample],
) -> Result<Rate, Fault>
    ensures { PromisedRated graph.now (P.Policy.view policy.now) rows.old rows.new result }
{
    if let Some(a) = lowest_differing(graph, policy) {
        return Err(Fault::Works(a));
    }
    rate_with(graph, promises(policy), rows)
}
