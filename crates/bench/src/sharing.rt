// Tick 0 and the later ticks of a run that a policy shares.
ghost use Rattle.std.specs.Prelude.{◌≡◌, ℕ, ◌+◌, ◌<◌, ◌≤◌, ◌&&◌, count_by, length, ◌==◌, nat_lt};
ghost use Rattle.model.specs.Likeness.{Matches};
ghost use Rattle.model.specs.Net.{run as run_at};
ghost use Rattle.runs.specs.Places.{Whole};
ghost use Rattle.runs.specs.Seen.{net, at, times_of, state, taken};
ghost use Rattle.bench.specs.Sharing.{Lays, newly, stand, Begins, Stepped};

use policy::Policy;
use runs::Run;
use std::array;

// Over policy and run apart: a bench has both, a join does tick 0 before there is a bench, and a struct of the two alone would
// stand in it for nothing else.

// The ticks left that the policy has of an actor, if a firing of it is under way.
fn taken_by<P: Policy>(a: usize, policy: &P, run: &Run<'_>) -> u16
    requires { a < 16 }
    ensures { result ≡ taken (state run.now) (P.Policy.view policy.now).left a }
{
    if run.left(a) > 0 {
        policy.left(a as u8)
    } else {
        0
    }
}

// Serves the policy once; the ticks left that it then has, of the firings under way.
fn serve_and_take<P: Policy>(policy: &mut P, run: &Run<'_>) -> [u16; 16]
    ensures serves { P.Policy.ticks policy.old policy.new }
    ensures value { (a : ℕ) → a < 16 → at result a ≡ taken (state run.now) (P.Policy.view policy.new).left a }
{
    policy.serve();
    array::from_fn(|a| taken_by(a, policy, run))
}

// Whether a firing has begun, by the ticks left before and after.
fn begun(was: u16, is: u16) -> bool
    ensures { result ≡ (was == 0 && nat_lt 0 is) }
{
    was == 0 && is > 0
}

// Asks for a lay of each actor whose firing has begun, after the ticks left that there were.
fn lay_begun<P: Policy>(left: &[u16; 16], run: &Run<'_>, policy: &mut P)
    ensures { Lays P.Policy (newly (at left.now) (state run.now)) (net run.now.graph.now).actors policy.old policy.new }
{
    let actors = run.graph().actors().len();
    for (a, left) in left[..actors].iter().enumerate() {
        if begun(*left, run.left(a)) {
            let _ = policy.lay(a as u8);
        }
    }
}

// How many are marked.
fn marked(marks: &[bool]) -> u8
    requires { length marks.now ≤ 16 }
    ensures { result ≡ count_by (λ mark. mark) marks.now }
{
    marks.iter().filter(|mark| **mark).count() as u8
}

// Tick 0: the policy is cleared, and every actor that has started in the run lays.
pub fn tick_zero<P: Policy>(policy: &mut P, run: &Run<'_>)
    requires timed { (a : ℕ) → at run.now.times a ≡ times_of run.now.graph.now a }
    requires first { run.now.tick ≡ 0 }
    requires started { Matches (net run.now.graph.now) (state run.now) (run_at (net run.now.graph.now) (at run.now.times) 0) }
    ensures begins { Begins P.Policy (net run.now.graph.now) (times_of run.now.graph.now) policy.old (stand run.now.tick (state run.now) policy.new) }
    ensures whole { Whole (net run.now.graph.now) (state run.now) }
{
    policy.clear();
    lay_begun(&[0; 16], run, policy);
}

// A later tick: the policy is served, firings take its ticks left and end, and every ready actor starts and lays; how many firings ended.
pub fn later_tick<P: Policy>(policy: &mut P, run: &mut Run<'_>) -> u8
    requires countable { run.old.tick < 4294967295 }
    requires timed { (a : ℕ) → at run.old.times a ≡ times_of run.old.graph.now a }
    requires whole { Whole (net run.old.graph.now) (state run.old) }
    ensures graph { run.new.graph ≡ run.old.graph }
    ensures times { run.new.times ≡ run.old.times }
    ensures tick { run.new.tick ≡ run.old.tick + 1 }
    ensures ticks { Stepped P.Policy (net run.old.graph.now) (times_of run.old.graph.now) (stand run.old.tick (state run.old) policy.old) (stand run.new.tick (state run.new) policy.new) result }
    ensures whole { Whole (net run.new.graph.now) (state run.new) }
{
    let left = serve_and_take(policy, run);
    let done = run.step(&left);
    lay_begun(&left, run, policy);
    marked(&done[..run.graph().actors().len()])
}
