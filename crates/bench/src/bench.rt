ghost use Rattle.std.specs.Prelude.{◌≡◌, ℕ, ◌≤◌};
ghost use Rattle.runs.specs.Seen.{net, at, times_of, state};
ghost use Rattle.runs.specs.Places.{Whole};
ghost use Rattle.rates.specs.Rates.{last_tick};

use policy::Policy;
use runs::Run;

// A graph that runs while a policy shares the card between its actors.
#[derive(Drop)]
pub struct Bench<'g, P: Policy> {
    // Its ticks are those done since the latest join or restart.
    pub(crate) run: Run<'g>,
    pub(crate) policy: P,
    // The lowest actor at which graph and policy do not agree, if any.
    pub(crate) refused: Option<u8>,
    ghost early: { run.tick ≤ last_tick },
    ghost timed: { (a : ℕ) → at run.times a ≡ times_of run.graph.now a },
    ghost whole: { Whole (net run.graph.now) (state run) },
}
