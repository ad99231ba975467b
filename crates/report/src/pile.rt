ghost use Rattle.report.specs.Piles.{SliceIs, PileIs};

use crate::fault::Fault;
use bench::times;
use graph::Graph;
use policy::{Ring, Slice};

// Of every 5 ticks the card serves the actors in 2.
const PERIOD: u8 = 5;

const SLOTS: u8 = 2;

// A slice of 2 in 5 over a ring, where the promises fit.
fn two_in_five(ring: Ring) -> Result<Slice<Ring>, policy::Fault>
    ensures { SliceIs ring result }
{
    Slice::check(&ring, PERIOD, SLOTS)?;
    Ok(Slice::new(ring, PERIOD, SLOTS))
}

// The card as it is shared: a slice of 2 in 5 over a ring of all the graph's actors.
pub fn pile(graph: &Graph) -> Result<Slice<Ring>, Fault>
    ensures { PileIs graph.now result }
{
    let works = times(graph);
    let ring = Ring::new(&works[..graph.actors().len()]);
    Ok(two_in_five(ring)?)
}
