ghost use Rattle.std.specs.Prelude.{◌≡◌, ℕ};
ghost use Rattle.runs.specs.Nets.{at, times_of};

use graph::Graph;

// The graph's times, then zeros.
pub fn times(graph: &Graph) -> [u16; 16]
    ensures { (a : ℕ) → at result a ≡ times_of graph.now a }
{
    let mut times = [0; 16];
    let actors = graph.actors();
    // By number: while a zip lends the times to be written, no invariant can name them.
    for (a, actor) in actors.iter().enumerate() {
        times[a] = actor.time;
    }
    times
}
