// Whether a policy's works are a graph's times.
ghost use Rattle.std.specs.Prelude.{Decides};
ghost use Rattle.runs.specs.Seen.{net, times_of};
ghost use Rattle.rates.specs.Agree.{Agree, Lowest};

use graph::Graph;
use policy::Policy;

// Whether the graph has the actor with its work for time, or neither side has it.
fn agrees<P: Policy>(graph: &Graph, policy: &P, a: u8) -> bool
    ensures { Decides result (Agree (net graph.now).actors (times_of graph.now) (P.Policy.view policy.now) a) }
{
    let time = graph.actors().get(usize::from(a)).map(|actor| actor.time);
    let work = (a < policy.number()).then(|| policy.work(a));
    time == work
}

// The lowest actor at which works and times differ, or which one side alone has.
pub fn lowest_differing<P: Policy>(graph: &Graph, policy: &P) -> Option<u8>
    ensures { Lowest (net graph.now) (times_of graph.now) (P.Policy.view policy.now) result }
{
    (0..16u8).find(|a| !agrees(graph, policy, *a))
}
