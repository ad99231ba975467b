ghost use Rattle.std.specs.Prelude.{◌≡◌, ℕ, ◌<◌, ◌≤◌, length};
ghost use Rattle.graph.specs.Meaning.{actors_in, channels_in, counts_in};

use crate::actor::Actor;
use crate::channel::Channel;
use crate::graph::Graph;

impl Graph {
    // The actors, by number.
    pub fn actors(&self) -> &[Actor]
        ensures { result.now ≡ actors_in self.now }
    {
        &self.actors[..self.n]
    }

    // The channels, by number.
    pub fn channels(&self) -> &[Channel]
        ensures { result.now ≡ channels_in self.now }
    {
        &self.channels[..self.m]
    }

    // The repetition counts, by actor: how often each fires in one iteration of the graph.
    pub fn counts(&self) -> &[u16]
        ensures { result.now ≡ counts_in self.now }
    {
        &self.counts[..self.n]
    }
}
