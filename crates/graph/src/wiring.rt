ghost use Rattle.std.specs.Prelude.{◌≤◌};
ghost use Rattle.graph.specs.Channels.{Every, Ends};

use crate::channel::Channel;

// Channels, and how many actors they join: both ends of each are among these.
#[derive(Clone, Copy)]
pub struct Wiring<'a> {
    pub actors: usize,
    pub channels: &'a [Channel],
    ghost few: { actors ≤ 16 },
    ghost ends: { Every (Ends actors) channels.now },
}
