// How a graph's channels come to be a plan.
ghost use Rattle.std.specs.Prelude.{◌≡◌, ◌≤◌, length};
ghost use Rattle.runs.specs.Loops.{Bounded};
ghost use Rattle.leaps.specs.Plans.{other, store_of, MovesOf, Wakes, PlanIs};

use crate::moves::Moves;
use crate::plan::Plan;
use crate::store::Store;
use graph::Channel;

// An end of a channel.
#[derive(Clone, Copy)]
enum End {
    Source,
    Dest,
}

impl End {
    fn other(self) -> End
        ensures { result ≡ other self }
    {
        match self {
            End::Source => End::Dest,
            End::Dest => End::Source,
        }
    }

    // The actor there, and what its firing moves.
    fn store(self, channel: &Channel) -> Store
        ensures { result ≡ store_of self channel.now }
    {
        match self {
            End::Source => Store {
                owner: Some(channel.source),
                rate: channel.p as u16,
            },
            End::Dest => Store {
                owner: Some(channel.dest),
                rate: channel.q as u16,
            },
        }
    }
}

// The moves of the actors at one end of the channels with tokens, and of those at the other end with free places.
fn moves(channels: &[Channel], end: End) -> Moves
    requires { length channels.now ≤ 32 }
    ensures { MovesOf (length channels.now) end channels.now result.stores }
{
    let mut stores = [Store::NOBODYS; 64];
    let far = end.other();
    // By number: a channel is two stores, 32 apart.
    for (c, channel) in channels.iter().enumerate() {
        stores[c] = end.store(channel);
        stores[32 + c] = far.store(channel);
    }
    Moves::of(stores)
}

// Which actors may be ready when one has ended a firing: itself, and those at the other ends of its channels.
fn wakes(channels: &[Channel]) -> [[bool; 16]; 16]
    requires { Bounded channels.now }
    ensures { Wakes 16 (length channels.now) channels.now result }
{
    let mut wakes = [[false; 16]; 16];
    for (a, row) in wakes.iter_mut().enumerate() {
        row[a] = true;
    }
    for channel in channels {
        let source = channel.source as usize;
        let dest = channel.dest as usize;
        wakes[source][dest] = true;
        wakes[dest][source] = true;
    }
    wakes
}

impl Plan {
    // The plan of so many actors with these channels.
    pub fn of(actors: usize, channels: &[Channel]) -> Plan
        requires { Bounded channels.now }
        ensures { PlanIs actors channels.now result }
    {
        Plan {
            actors,
            takes: moves(channels, End::Dest),
            puts: moves(channels, End::Source),
            wakes: wakes(channels),
        }
    }
}
