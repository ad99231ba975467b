ghost use Rattle.std.specs.Prelude.{◌≡◌};
ghost use Rattle.graph.specs.Meaning.{actors_in, channels_in};
ghost use Rattle.runs.specs.Loops.{Fitting};

use graph::{Channel, Graph};

// How many actors there are and the channels between them, a graph's or others that fit a run.
#[derive(Clone, Copy)]
pub struct Wires<'a> {
    pub actors: usize,
    pub channels: &'a [Channel],
    ghost fitting: { Fitting actors channels.now },
}

impl<'a> Wires<'a> {
    ghost use Rattle.std.specs.Prelude.{length};

    // Those of a graph.
    pub(crate) fn of(graph: &'a Graph) -> Wires<'a>
        ensures actors { result.actors ≡ length (actors_in graph.now) }
        ensures channels { result.channels.now ≡ channels_in graph.now }
    {
        Wires {
            actors: graph.actors().len(),
            channels: graph.channels(),
        }
    }
}
