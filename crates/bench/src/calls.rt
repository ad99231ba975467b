// The calls of a bench.
ghost use Rattle.std.specs.Prelude.{◌≡◌, false, [], is_ok, MatchOption};
ghost use Rattle.runs.specs.Seen.{net, times_of, state};
ghost use Rattle.rates.specs.Agree.{Agreed, Lowest, Checked};
ghost use Rattle.bench.specs.Calls.{look, graph_of, TickIs, RestartIs, QuestionIs};
ghost use Rattle.bench.specs.Sharing.{Begins};
ghost use Rattle.bench.specs.Story.{InStep};

use crate::bench::Bench;
use crate::sharing::{later_tick, tick_zero};
use graph::Graph;
use policy::Policy;
use rates::{Fault, LAST_TICK, lowest_differing};
use runs::{Run, times};

// A join is accepted, or refused for the lowest actor at which graph and policy do not agree.
fn accepted(refused: Option<u8>) -> Result<(), Fault>
    ensures { MatchOption refused (result ≡ Ok tt) (λ a. result ≡ Err (Fault.Works a)) }
{
    // By a match: what is there is the refusal, which `ok_or` takes for the answer, and `map_or` would tell last.
    match refused {
        None => Ok(()),
        Some(a) => Err(Fault::Works(a)),
    }
}

impl<'g, P: Policy> Bench<'g, P> {
    // Whether the policy's works are the graph's times.
    pub fn check(graph: &Graph, policy: &P) -> Result<(), Fault>
        ensures { Checked (net graph.now) (times_of graph.now) (P.Policy.view policy.now) result }
    {
        accepted(lowest_differing(graph, policy))
    }

    // The bench of graph and policy, with the policy cleared and tick 0 done.
    pub fn join(graph: &'g Graph, mut policy: P) -> Bench<'g, P>
        ensures same { graph_of result ≡ graph.now }
        ensures refused { Lowest (net graph.now) (times_of graph.now) (P.Policy.view policy) result.refused }
        ensures after { Begins P.Policy (net graph.now) (times_of graph.now) policy (look result) }
        ensures kept { Agreed (net graph.now) (times_of graph.now) (P.Policy.view policy) → InStep P.Policy (net graph.now) (times_of graph.now) policy [] (look result) }
    {
        let refused = lowest_differing(graph, &policy);
        let run = Run::new(graph, times(graph));
        tick_zero(&mut policy, &run);
        Bench {
            run,
            policy,
            refused,
        }
    }

    // The next tick: its number, and how many firings ended in it.
    pub fn tick(&mut self) -> Result<(u32, u8), Fault>
        ensures value { TickIs P.Policy (net (graph_of self.old)) (times_of (graph_of self.old)) self.old.refused (look self.old) (look self.new) result }
        ensures same { (graph_of self.new ≡ graph_of self.old) × (self.new.refused ≡ self.old.refused) }
        ensures refused { is_ok result ≡ false → self.new ≡ self.old }
    {
        accepted(self.refused)?;
        if self.run.tick() >= LAST_TICK {
            return Err(Fault::LastTick);
        }
        let ended = later_tick(&mut self.policy, &mut self.run);
        Ok((self.run.tick(), ended))
    }

    // The number that is asked of, where so many actors or channels are there.
    fn asked(&self, number: u8, there: usize) -> Result<usize, Fault>
        ensures { QuestionIs self.now.refused there (λ i. i) number result }
    {
        accepted(self.refused)?;
        let number = usize::from(number);
        if number < there {
            Ok(number)
        } else {
            Err(Fault::Absent)
        }
    }

    // How many firings of an actor have ended since the latest join or restart.
    pub fn count(&self, a: u8) -> Result<u32, Fault>
        ensures { QuestionIs self.now.refused (net (graph_of self.now)).actors (state self.now.run).ended a result }
    {
        let a = self.asked(a, self.run.graph().actors().len())?;
        Ok(self.run.ended(a))
    }

    // The tokens on a channel.
    pub fn tokens(&self, c: u8) -> Result<u16, Fault>
        ensures { QuestionIs self.now.refused (net (graph_of self.now)).channels (state self.now.run).tokens c result }
    {
        let c = self.asked(c, self.run.graph().channels().len())?;
        Ok(self.run.tokens(c))
    }

    // The most ticks until an actor's firing under way ends.
    pub fn due(&self, a: u8) -> Result<u16, Fault>
        ensures { QuestionIs self.now.refused (net (graph_of self.now)).actors (P.Policy.view self.now.policy).due a result }
    {
        self.asked(a, self.run.graph().actors().len())?;
        Ok(self.policy.due(a))
    }

    // Back to the beginning: initial tokens, no firings ended, the policy cleared, and tick 0 done.
    pub fn restart(&mut self) -> Result<(), Fault>
        ensures value { RestartIs P.Policy (net (graph_of self.old)) (times_of (graph_of self.old)) self.old.refused (look self.old) (look self.new) result }
        ensures same { (graph_of self.new ≡ graph_of self.old) × (self.new.refused ≡ self.old.refused) }
        ensures refused { is_ok result ≡ false → self.new ≡ self.old }
    {
        accepted(self.refused)?;
        self.run.restart();
        tick_zero(&mut self.policy, &self.run);
        Ok(())
    }
}
