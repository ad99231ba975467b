// The calls of a bench as values, and what they answer when they are not refused.

// A call: a tick, the count or the due of an actor, the tokens of a channel, a restart.
#[derive(Clone, Copy, PartialEq, Eq, Debug)]
pub enum Call {
    Tick,
    Count(u8),
    Tokens(u8),
    Due(u8),
    Restart,
}

// What a call answers.
#[derive(Clone, Copy, PartialEq, Eq, Debug)]
pub enum Answer {
    // The tick number, and the firings ended in that tick.
    Ticked(u32, u8),
    Counted(u32),
    Held(u16),
    Owed(u16),
    Restarted,
}
