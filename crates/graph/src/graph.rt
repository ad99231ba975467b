// A graph that keeps every rule.
ghost use Rattle.std.specs.Prelude.{◌≡◌, ℕ, ◌-◌, ◌<◌, ◌≤◌, length, take, drop, replicate};
ghost use Rattle.graph.specs.Channels.{blank};
ghost use Rattle.graph.specs.Rules.{vacant, GoodActors, GoodChannels};
ghost use Rattle.graph.specs.Counts.{Solves, Small, Least, at};
ghost use Rattle.graph.specs.Piece.{Way};

use crate::actor::Actor;
use crate::channel::Channel;

// The first `n` actors and the first `m` channels are there; the places after them hold zeros.
// Arrays with a count beside each: a graph is `Copy`, which a vector, even one of fixed capacity, is not.
#[derive(Clone, Copy)]
pub struct Graph {
    pub(crate) actors: [Actor; 16],
    pub(crate) channels: [Channel; 32],
    pub(crate) n: usize,
    pub(crate) m: usize,
    // how often each actor fires in one iteration of the graph; beside the actors, since it is given out as numbers
    pub(crate) counts: [u16; 16],
    ghost few: { (1 ≤ n) × (n ≤ 16) × (m ≤ 32) },
    ghost full: { (length actors ≡ 16) × (length channels ≡ 32) × (length counts ≡ 16) },
    ghost idle_actors: { drop n actors ≡ replicate (16 - n) vacant },
    ghost idle_channels: { drop m channels ≡ replicate (32 - m) blank },
    ghost named: { GoodActors (take n actors) },
    ghost limited: { GoodChannels n (take m channels) },
    ghost whole: { (a : ℕ) → a < n → ∥ Way (take m channels) a ∥₁ },
    ghost solves: { Solves n (take m channels) (at counts) },
    ghost small: { Small counts },
    ghost least: { Least n (take m channels) counts },
}
