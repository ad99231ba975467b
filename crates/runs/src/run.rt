// A run of a graph, tick by tick.
ghost use Rattle.std.specs.Prelude.{◌≡◌, ℕ, ◌+◌, ◌^◌, ◌<◌, ◌≤◌, not, length};
ghost use Rattle.model.specs.Likeness.{Matches};
ghost use Rattle.model.specs.Net.{every, busy, ends, fallen, tick as tick_state, next as next_state, run as run_at};
ghost use Rattle.runs.specs.Loops.{flag};
ghost use Rattle.runs.specs.Nets.{net, at, taken};
ghost use Rattle.runs.specs.Places.{Within};
ghost use Rattle.runs.specs.Standings.{state_of, Vacant};

use crate::standing::Standing;
use crate::steps::{reset, step};
use crate::wires::Wires;
use graph::Graph;

// A run of a graph with a table of times: what stands in it after so many ticks.
#[derive(Clone, Copy)]
pub struct Run<'g> {
    graph: &'g Graph,
    // by actor, as whoever makes the run hands them over
    times: [u16; 16],
    standing: Standing,
    // the ticks done since tick 0, or as many as can be told
    tick: u32,
    // no actor has ended more firings than ticks have been done
    ghost few: { (a : ℕ) → (state_of standing).ended a ≤ tick },
    // no channel holds more than its places
    ghost within: { Within (net graph.now) (state_of standing) },
    // nothing stands past the graph's channels and actors
    ghost vacant: { Vacant (net graph.now) (state_of standing) },
}

impl<'g> Run<'g> {
    ghost use Rattle.runs.specs.Seen.{state};

    // Tick 0 of a graph with a table of times.
    pub fn new(graph: &'g Graph, times: [u16; 16]) -> Run<'g>
        ensures graph { result.graph ≡ graph.entry }
        ensures times { result.times ≡ times }
        ensures tick { result.tick ≡ 0 }
        ensures after { Matches (net graph.now) (state result) (run_at (net graph.now) (at times) 0) }
    {
        let wires = Wires::of(graph);
        let mut standing = Standing::initial(&wires);
        standing.start_ready(&wires, &times);
        Run {
            graph,
            times,
            standing,
            tick: 0,
        }
    }

    // Back to tick 0, of the same graph and times.
    pub fn restart(&mut self)
        ensures graph { self.new.graph ≡ self.old.graph }
        ensures times { self.new.times ≡ self.old.times }
        ensures tick { self.new.tick ≡ 0 }
        ensures after { Matches (net self.new.graph.now) (state self.new) (run_at (net self.new.graph.now) (at self.new.times) 0) }
    {
        let actors = self.graph.actors().len();
        let channels = self.graph.channels();
        reset(actors, channels, &self.times, &mut self.standing);
        self.tick = 0;
    }

    // A later tick, with the new ticks left of the firings under way; marks the firings that ended.
    pub fn step(&mut self, left: &[u16; 16]) -> [bool; 16]
        requires { (a : ℕ) → a < (net self.old.graph.now).actors → (state self.old).ended a + 1 < 2 ^ 32 }
        ensures graph { self.new.graph ≡ self.old.graph }
        ensures times { self.new.times ≡ self.old.times }
        ensures tick { self.old.tick < 4294967295 → self.new.tick ≡ self.old.tick + 1 }
        ensures done { (a : ℕ) → a < (net self.old.graph.now).actors → flag result a ≡ ends (state self.old) (taken (state self.old) (at left.now)) a }
        ensures after { Matches (net self.old.graph.now) (state self.new) (tick_state (net self.old.graph.now) (at self.old.times) (taken (state self.old) (at left.now)) (state self.old)) }
    {
        let graph = self.graph;
        let done = step(
            graph.actors().len(),
            graph.channels(),
            &self.times,
            left,
            &mut self.standing,
        );
        self.tick = self.tick.saturating_add(1);
        done
    }

    // A later tick of a run of its own.
    pub fn next(&mut self) -> [bool; 16]
        requires { (a : ℕ) → a < (net self.old.graph.now).actors → (state self.old).ended a + 1 < 2 ^ 32 }
        ensures graph { self.new.graph ≡ self.old.graph }
        ensures times { self.new.times ≡ self.old.times }
        ensures tick { self.old.tick < 4294967295 → self.new.tick ≡ self.old.tick + 1 }
        ensures done { (a : ℕ) → a < (net self.old.graph.now).actors → flag result a ≡ ends (state self.old) (fallen (state self.old)) a }
        ensures after { Matches (net self.old.graph.now) (state self.new) (next_state (net self.old.graph.now) (at self.old.times) (state self.old)) }
    {
        let left = self.standing.one_less(self.graph.actors().len());
        self.step(&left)
    }

    // The graph that runs.
    pub fn graph(&self) -> &'g Graph
        ensures { result ≡ self.now.graph }
    {
        self.graph
    }

    // The ticks done since tick 0.
    pub fn tick(&self) -> u32
        ensures { result ≡ self.now.tick }
    {
        self.tick
    }

    // The tokens of a channel.
    pub fn tokens(&self, c: usize) -> u16
        ensures tokens { result ≡ (state self.now).tokens c }
        ensures absent { (net self.now.graph.now).channels ≤ c → result ≡ 0 }
    {
        self.standing.held.get(c).map_or(0, |held| held.tokens)
    }

    // The free places of a channel.
    pub fn free(&self, c: usize) -> u16
        ensures free { result ≡ (state self.now).free c }
        ensures absent { (net self.now.graph.now).channels ≤ c → result ≡ 0 }
    {
        self.standing.held.get(c).map_or(0, |held| held.free)
    }

    // The ticks left of an actor's firing.
    pub fn left(&self, a: usize) -> u16
        ensures left { result ≡ (state self.now).left a }
        ensures absent { (net self.now.graph.now).actors ≤ a → result ≡ 0 }
    {
        self.standing
            .doing
            .get(a)
            .map_or(0, |doing| doing.firing.left())
    }

    // The firings of an actor that have ended.
    pub fn ended(&self, a: usize) -> u32
        ensures ended { result ≡ (state self.now).ended a }
        ensures few { result ≤ self.now.tick }
        ensures absent { (net self.now.graph.now).actors ≤ a → result ≡ 0 }
    {
        self.standing.doing.get(a).map_or(0, |doing| doing.ended)
    }

    // Whether nothing is under way.
    pub fn is_still(&self) -> bool
        ensures { result ≡ every (net self.now.graph.now).actors (λ a. not (busy (state self.now) a)) }
    {
        self.standing.is_still(self.graph.actors().len())
    }
}
