ghost use Rattle.std.specs.Prelude.{◌≡◌, ℕ, ◌<◌, ◌≤◌, length, IfOk};
ghost use Rattle.graph.specs.File.{file_of};
ghost use Rattle.graph.specs.Meaning.{writing, ReadBy};

use crate::fault::Fault;
use crate::graph::Graph;
use crate::reading::{Parts, read_parts};
use crate::wiring::Wiring;

impl Graph {
    // The graph whose file these bytes are, or the one refusal.
    pub fn read(bytes: &[u8]) -> Result<Graph, Fault>
        ensures said { ReadBy (file_of bytes.now) result }
        ensures back { IfOk result (λ g. bytes.now ≡ writing g) }
    {
        let Parts {
            actors,
            n,
            channels,
            m,
        } = read_parts(bytes)?;
        let wiring = Wiring {
            actors: n,
            channels: &channels[..m],
        };
        if let Some(actor) = wiring.apart() {
            return Err(Fault::Apart(actor as u8));
        }
        let counts = wiring.counts().ok_or(Fault::Unbalanced)?;
        Ok(Graph {
            actors,
            channels,
            n,
            m,
            counts,
        })
    }
}
