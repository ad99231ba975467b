// A list of calls made of a bench, with the guarantee whole.
ghost use Rattle.std.specs.Prelude.{◌≡◌};
ghost use Rattle.runs.specs.Seen.{net, times_of};
ghost use Rattle.rates.specs.Agree.{Agreed};
ghost use Rattle.bench.specs.Calls.{look, graph_of, PerformIs};
ghost use Rattle.bench.specs.Guarantee.{made, Guaranteed, Pinned};

use crate::bench::Bench;
use crate::call::{Answer, Call};
use crate::report::Report;
use graph::Graph;
use policy::{Exact, Policy};
use rates::{Fault, Sample, promised_rate, unhindered_rate};

impl<'g, P: Policy> Bench<'g, P> {
    // Makes a call.
    fn perform(&mut self, call: Call) -> Result<Answer, Fault>
        ensures value { PerformIs P.Policy (net (graph_of self.old)) (times_of (graph_of self.old)) self.old.refused (look self.old) call result (look self.new) }
        ensures same { (graph_of self.new ≡ graph_of self.old) × (self.new.refused ≡ self.old.refused) }
    {
        // By a match: calls come as values, of which the promise tells, and not as closures.
        match call {
            Call::Tick => self.tick().map(|(tick, ended)| Answer::Ticked(tick, ended)),
            Call::Count(a) => self.count(a).map(Answer::Counted),
            Call::Tokens(c) => self.tokens(c).map(Answer::Held),
            Call::Due(a) => self.due(a).map(Answer::Owed),
            Call::Restart => self.restart().map(|_| Answer::Restarted),
        }
    }
}

// Rates both runs, joins graph and policy, and makes the calls, as many as there is room for answers.
pub fn follow<'g, P: Policy>(
    graph: &'g Graph,
    policy: P,
    calls: &[Call],
    answers: &mut [Result<Answer, Fault>],
    rows: &mut [Sample],
    held_rows: &mut [Sample],
) -> Report<'g, P>
    ensures { Guaranteed P.Policy graph.now policy calls.now answers.old answers.new rows.old rows.new held_rows.old held_rows.new result }
{
    let unhindered = unhindered_rate(graph, rows);
    let promised = promised_rate(graph, &policy, held_rows);
    let mut bench = Bench::join(graph, policy);
    let made = calls.len().min(answers.len());
    // By index: while a zip lends the answers to be written, no invariant can name them.
    for (i, call) in calls[..made].iter().enumerate() {
        answers[i] = bench.perform(*call);
    }
    Report {
        bench,
        unhindered,
        promised,
    }
}

// The same with a policy of which each call has one outcome: there are no other answers.
pub fn follow_exact<'g, P: Exact>(
    graph: &'g Graph,
    policy: P,
    calls: &[Call],
    answers: &mut [Result<Answer, Fault>],
    rows: &mut [Sample],
    held_rows: &mut [Sample],
) -> Report<'g, P>
    ensures guaranteed { Guaranteed P.Policy graph.now policy calls.now answers.old answers.new rows.old rows.new held_rows.old held_rows.new result }
    ensures pinned { Agreed (net graph.now) (times_of graph.now) (P.Policy.view policy) → Pinned P.Policy P.Exact.like graph.now policy calls.now answers.new (made calls.now answers.old) }
{
    follow(graph, policy, calls, answers, rows, held_rows)
}
