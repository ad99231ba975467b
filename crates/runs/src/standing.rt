// What stands in a run, and what the parts of a tick make of it.
ghost use Rattle.std.specs.Prelude.{◌≡◌, ℕ, ◌+◌, ◌-◌, ◌^◌, ◌<◌, ◌≤◌, true, false, cond, not, ◌&&◌, length, ◌==◌, nat_lt, ◌↔◌, IsTrue};
ghost use Rattle.graph.specs.Channels.{Ends};
ghost use Rattle.model.specs.Likeness.{Matches};
ghost use Rattle.model.specs.Net.{when, busy, start, ends, finish as finished, fallen, initial_state};
ghost use Rattle.runs.specs.Firings.{left_of};
ghost use Rattle.runs.specs.Loops.{flag, Roomy, Countable, Withheld, Marked, Takes, Taken, Begun, Served, Given};
ghost use Rattle.runs.specs.Nets.{at, taken};
ghost use Rattle.runs.specs.Places.{Within};
ghost use Rattle.runs.specs.Standings.{state_of, Vacant};
ghost use Rattle.runs.specs.Wirings.{net_in};

use crate::firing::{Event, Firing, ends};
use crate::wires::Wires;
use graph::Channel;

// What a channel holds.
#[derive(Clone, Copy)]
pub struct Held {
    pub tokens: u16,
    pub free: u16,
}

// What an actor does, and how many of its firings have ended.
#[derive(Clone, Copy)]
pub struct Doing {
    pub firing: Firing,
    pub ended: u32,
}

// What stands in a run: by channel, and by actor.
#[derive(Clone, Copy)]
pub struct Standing {
    pub held: [Held; 32],
    pub doing: [Doing; 16],
}

impl Held {
    // Nothing, as there is no channel.
    pub const NOTHING: Held = Held { tokens: 0, free: 0 };

    // The initial tokens and free places.
    fn initial(channel: &Channel) -> Held
        requires { channel.now.tokens ≤ channel.now.capacity }
        ensures tokens { result.tokens ≡ channel.now.tokens }
        ensures free { result.free ≡ channel.now.capacity - channel.now.tokens }
    {
        Held {
            tokens: channel.tokens,
            free: channel.capacity - channel.tokens,
        }
    }

    // Strikes out the ends of the channel that its tokens and free places hinder. Ends are asked for, here and in the next two: a
    // `Channel` is what a file states, before its ends are judged.
    fn withhold(self, channel: &Channel, go: &mut [bool; 16])
        requires { Ends 16 channel.now }
        ensures { Withheld channel.now self.tokens self.free go.old go.new }
    {
        if self.tokens < u16::from(channel.q) {
            go[usize::from(channel.dest)] = false;
        }
        if self.free < u16::from(channel.p) {
            go[usize::from(channel.source)] = false;
        }
    }

    // The marked ends of the channel take their tokens and places. Not one with `give`: a difference may not pass 0, a sum has to
    // fit, and each asks its own of the caller.
    fn take(&mut self, channel: &Channel, go: &[bool; 16])
        requires ends { Ends 16 channel.now }
        requires tokens { flag go.now channel.now.dest ≡ true → channel.now.q ≤ self.old.tokens }
        requires places { flag go.now channel.now.source ≡ true → channel.now.p ≤ self.old.free }
        ensures tokens { self.new.tokens ≡ self.old.tokens - when (flag go.now channel.now.dest) channel.now.q }
        ensures free { self.new.free ≡ self.old.free - when (flag go.now channel.now.source) channel.now.p }
    {
        if go[usize::from(channel.dest)] {
            self.tokens -= u16::from(channel.q);
        }
        if go[usize::from(channel.source)] {
            self.free -= u16::from(channel.p);
        }
    }

    // The marked ends of the channel give their tokens and places.
    fn give(&mut self, channel: &Channel, done: &[bool; 16])
        requires ends { Ends 16 channel.now }
        requires roomy { (self.old.tokens ≤ 4096) × (self.old.free ≤ 4096) }
        ensures tokens { self.new.tokens ≡ self.old.tokens + when (flag done.now channel.now.source) channel.now.p }
        ensures free { self.new.free ≡ self.old.free + when (flag done.now channel.now.dest) channel.now.q }
    {
        if done[usize::from(channel.source)] {
            self.tokens += u16::from(channel.p);
        }
        if done[usize::from(channel.dest)] {
            self.free += u16::from(channel.q);
        }
    }
}

impl Doing {
    // Nothing, and no firing has ended.
    pub const IDLE: Doing = Doing {
        firing: Firing::Idle,
        ended: 0,
    };

    // A firing starts.
    fn start(&mut self, time: u16)
        ensures left { left_of self.new.firing ≡ time }
        ensures ended { self.new.ended ≡ self.old.ended }
    {
        self.firing = self.firing.after(Event::Start(time));
    }

    // The firing under way comes to the new ticks left, and is counted where it ends; whether it does.
    fn serve(&mut self, left: u16) -> bool
        requires { self.old.ended < 4294967295 }
        ensures left { left_of self.new.firing ≡ cond (nat_lt 0 (left_of self.old.firing)) left 0 }
        ensures done { result ≡ (nat_lt 0 (left_of self.old.firing) && left_of self.new.firing == 0) }
        ensures ended { self.new.ended ≡ self.old.ended + when result 1 }
    {
        let was = self.firing;
        self.firing = was.after(Event::Served(left));
        let done = ends(was, self.firing);
        if done {
            self.ended += 1;
        }
        done
    }
}

// Loops with a number write an array beside the one that they go through, or go through the one that is written: while a zip
// lends an array to be written, no invariant can name it. The loop of `ready` writes neither, and says by its number how many
// channels have been looked at.
impl Standing {
    // Nothing stands anywhere.
    pub const REST: Standing = Standing {
        held: [Held::NOTHING; 32],
        doing: [Doing::IDLE; 16],
    };

    // What stands before the starts of tick 0.
    pub(crate) fn initial(wires: &Wires<'_>) -> Standing
        ensures begins { Matches (net_in wires.now) (state_of result) (initial_state (net_in wires.now)) }
        ensures within { Within (net_in wires.now) (state_of result) }
        ensures vacant { Vacant (net_in wires.now) (state_of result) }
    {
        let mut standing = Standing {
            held: [Held::NOTHING; 32],
            doing: [Doing::IDLE; 16],
        };
        standing.put_back(wires);
        standing
    }

    // Puts back what stands before the starts of tick 0. Past the actors and channels that there are, all stays.
    #[inline(always)]
    pub(crate) fn put_back(&mut self, wires: &Wires<'_>)
        ensures begins { Matches (net_in wires.now) (state_of self.new) (initial_state (net_in wires.now)) }
        ensures within { Within (net_in wires.now) (state_of self.new) }
        ensures vacant { Vacant (net_in wires.now) (state_of self.old) → Vacant (net_in wires.now) (state_of self.new) }
    {
        let channels = wires.channels;
        for (c, channel) in channels.iter().enumerate() {
            self.held[c] = Held::initial(channel);
        }
        self.doing[..wires.actors].fill(Doing::IDLE);
    }

    // Marks the actors that are idle. By how many there are, as four more below, and not by the wires: what is asked of the number
    // bounds the slice, which would otherwise have to be shown in each.
    fn idle(&self, actors: usize) -> [bool; 16]
        requires { actors ≤ 16 }
        ensures are { (a : ℕ) → a < actors → flag result a ≡ not (busy (state_of self.now) a) }
        ensures absent { (a : ℕ) → actors ≤ a → flag result a ≡ false }
    {
        let mut idle = [false; 16];
        for (a, doing) in self.doing[..actors].iter().enumerate() {
            idle[a] = doing.firing.left() == 0;
        }
        idle
    }

    // Marks the actors that are ready.
    fn ready(&self, wires: &Wires<'_>) -> [bool; 16]
        ensures { Marked (length wires.now.channels.now) wires.now.actors wires.now.channels.now (state_of self.now) result }
    {
        let channels = wires.channels;
        let mut go = self.idle(wires.actors);
        for (c, channel) in channels.iter().enumerate() {
            self.held[c].withhold(channel, &mut go);
        }
        go
    }

    // The marked actors take their tokens and places. Not one with `give`, as of a channel.
    fn take(&mut self, wires: &Wires<'_>, go: &[bool; 16])
        requires { Takes wires.now.channels.now go.now (state_of self.old) }
        ensures { Taken (length wires.now.channels.now) wires.now.channels.now go.now (state_of self.old) (state_of self.new) }
    {
        let channels = wires.channels;
        for (c, channel) in channels.iter().enumerate() {
            self.held[c].take(channel, go);
        }
    }

    // The marked actors have a firing under way.
    fn begin(&mut self, actors: usize, times: &[u16; 16], go: &[bool; 16])
        requires { actors ≤ 16 }
        ensures { Begun actors times.now go.now (state_of self.old) (state_of self.new) }
    {
        for (a, doing) in self.doing[..actors].iter_mut().enumerate() {
            if go[a] {
                doing.start(times[a]);
            }
        }
    }

    // Every ready actor starts once.
    pub(crate) fn start_ready(&mut self, wires: &Wires<'_>, times: &[u16; 16])
        ensures after { Matches (net_in wires.now) (state_of self.new) (start (net_in wires.now) (at times.now) (state_of self.old)) }
        ensures counts { (a : ℕ) → (state_of self.new).ended a ≡ (state_of self.old).ended a }
        ensures within { Within (net_in wires.now) (state_of self.old) → Within (net_in wires.now) (state_of self.new) }
        ensures vacant { Vacant (net_in wires.now) (state_of self.old) → Vacant (net_in wires.now) (state_of self.new) }
    {
        let go = self.ready(wires);
        self.take(wires, &go);
        self.begin(wires.actors, times, &go);
    }

    // Each firing under way comes to the new ticks left, and those that come to 0 are counted; marks these.
    fn serve(&mut self, actors: usize, left: &[u16; 16]) -> [bool; 16]
        requires few { actors ≤ 16 }
        requires countable { Countable actors (state_of self.old) }
        ensures { Served actors left.now (state_of self.old) (state_of self.new) result }
    {
        let mut done = [false; 16];
        for (a, doing) in self.doing[..actors].iter_mut().enumerate() {
            done[a] = doing.serve(left[a]);
        }
        done
    }

    // The firings done give their tokens and places.
    fn give(&mut self, wires: &Wires<'_>, done: &[bool; 16])
        requires { Roomy wires.now.channels.now (state_of self.old) }
        ensures { Given (length wires.now.channels.now) wires.now.channels.now done.now (state_of self.old) (state_of self.new) }
    {
        let channels = wires.channels;
        for (c, channel) in channels.iter().enumerate() {
            self.held[c].give(channel, done);
        }
    }

    // The firings under way come to the new ticks left, and those that come to 0 end; marks these.
    pub(crate) fn finish(&mut self, wires: &Wires<'_>, left: &[u16; 16]) -> [bool; 16]
        requires roomy { Roomy wires.now.channels.now (state_of self.old) }
        requires countable { Countable wires.now.actors (state_of self.old) }
        ensures done { (a : ℕ) → a < wires.now.actors → flag result a ≡ ends (state_of self.old) (taken (state_of self.old) (at left.now)) a }
        ensures after { Matches (net_in wires.now) (state_of self.new) (finished (net_in wires.now) (taken (state_of self.old) (at left.now)) (state_of self.old)) }
        ensures counts { (a : ℕ) → (state_of self.new).ended a ≤ (state_of self.old).ended a + 1 }
        ensures within { Within (net_in wires.now) (state_of self.old) → Within (net_in wires.now) (state_of self.new) }
        ensures vacant { Vacant (net_in wires.now) (state_of self.old) → Vacant (net_in wires.now) (state_of self.new) }
    {
        let done = self.serve(wires.actors, left);
        self.give(wires, &done);
        done
    }

    // One tick less for each firing under way.
    pub(crate) fn one_less(&self, actors: usize) -> [u16; 16]
        requires { actors ≤ 16 }
        ensures value { (a : ℕ) → a < actors → at result a ≡ fallen (state_of self.now) a }
    {
        let mut left = [0; 16];
        for (a, doing) in self.doing[..actors].iter().enumerate() {
            left[a] = doing.firing.left().saturating_sub(1);
        }
        left
    }

    // Whether nothing is under way.
    pub(crate) fn is_still(&self, actors: usize) -> bool
        requires { actors ≤ 16 }
        ensures { IsTrue result ↔ ((a : ℕ) → a < actors → (state_of self.now).left a ≡ 0) }
    {
        self.doing[..actors]
            .iter()
            .all(|doing| doing.firing.left() == 0)
    }
}
