// Tick 0 and the later ticks of what stands, for any actors and channels that fit. A `Run` goes by them.
ghost use Rattle.std.specs.Prelude.{◌≡◌, ℕ, ◌+◌, ◌<◌, ◌≤◌, length};
ghost use Rattle.model.specs.Likeness.{Matches};
ghost use Rattle.model.specs.Net.{ends, fallen, tick, next as next_state, run as run_at};
ghost use Rattle.runs.specs.Loops.{flag, Fitting, Roomy, Countable};
ghost use Rattle.runs.specs.Nets.{net_of, at, taken};
ghost use Rattle.runs.specs.Places.{Within};
ghost use Rattle.runs.specs.Standings.{state_of, Vacant};

use crate::standing::Standing;
use crate::wires::Wires;
use graph::Channel;

// Tick 0.
pub fn reset(actors: usize, channels: &[Channel], times: &[u16; 16], standing: &mut Standing)
    requires { Fitting actors channels.now }
    ensures after { Matches (net_of actors channels.now) (state_of standing.new) (run_at (net_of actors channels.now) (at times.now) 0) }
    ensures counts { Vacant (net_of actors channels.now) (state_of standing.old) → (a : ℕ) → (state_of standing.new).ended a ≡ 0 }
    ensures within { Within (net_of actors channels.now) (state_of standing.new) }
    ensures vacant { Vacant (net_of actors channels.now) (state_of standing.old) → Vacant (net_of actors channels.now) (state_of standing.new) }
{
    let wires = Wires { actors, channels };
    standing.put_back(&wires);
    standing.start_ready(&wires, times);
}

// A later tick, with the new ticks left of the firings under way; marks the firings that ended.
pub fn step(
    actors: usize,
    channels: &[Channel],
    times: &[u16; 16],
    left: &[u16; 16],
    standing: &mut Standing,
) -> [bool; 16]
    requires fitting { Fitting actors channels.now }
    requires roomy { Roomy channels.now (state_of standing.old) }
    requires countable { Countable actors (state_of standing.old) }
    ensures size { length result ≡ 16 }
    ensures done { (a : ℕ) → a < actors → flag result a ≡ ends (state_of standing.old) (taken (state_of standing.old) (at left.now)) a }
    ensures after { Matches (net_of actors channels.now) (state_of standing.new) (tick (net_of actors channels.now) (at times.now) (taken (state_of standing.old) (at left.now)) (state_of standing.old)) }
    ensures counts { (a : ℕ) → (state_of standing.new).ended a ≤ (state_of standing.old).ended a + 1 }
    ensures within { Within (net_of actors channels.now) (state_of standing.old) → Within (net_of actors channels.now) (state_of standing.new) }
    ensures vacant { Vacant (net_of actors channels.now) (state_of standing.old) → Vacant (net_of actors channels.now) (state_of standing.new) }
{
    let wires = Wires { actors, channels };
    let done = standing.finish(&wires, left);
    standing.start_ready(&wires, times);
    done
}

// A later tick of a run of its own.
pub fn next(
    actors: usize,
    channels: &[Channel],
    times: &[u16; 16],
    standing: &mut Standing,
) -> [bool; 16]
    requires fitting { Fitting actors channels.now }
    requires roomy { Roomy channels.now (state_of standing.old) }
    requires countable { Countable actors (state_of standing.old) }
    ensures size { length result ≡ 16 }
    ensures done { (a : ℕ) → a < actors → flag result a ≡ ends (state_of standing.old) (fallen (state_of standing.old)) a }
    ensures after { Matches (net_of actors channels.now) (state_of standing.new) (next_state (net_of actors channels.now) (at times.now) (state_of standing.old)) }
    ensures counts { (a : ℕ) → (state_of standing.new).ended a ≤ (state_of standing.old).ended a + 1 }
    ensures within { Within (net_of actors channels.now) (state_of standing.old) → Within (net_of actors channels.now) (state_of standing.new) }
    ensures vacant { Vacant (net_of actors channels.now) (state_of standing.old) → Vacant (net_of actors channels.now) (state_of standing.new) }
{
    let left = standing.one_less(actors);
    step(actors, channels, times, &left, standing)
}
