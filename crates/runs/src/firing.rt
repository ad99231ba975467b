ghost use Rattle.std.specs.Prelude.{◌≡◌, ◌&&◌, ◌==◌, nat_lt};
ghost use Rattle.runs.specs.Firings.{left_of, after};

// What an actor is doing: nothing, or a firing that has so many ticks to go. No `Option`: in the match
// that an event makes, None would not say idle, nor Some under way.
#[derive(Clone, Copy)]
pub enum Firing {
    Idle,
    UnderWay(u16),
}

// What happens to an actor: it starts, with its time, or it was served, with the ticks that are left then.
#[derive(Clone, Copy)]
pub(crate) enum Event {
    Start(u16),
    Served(u16),
}

impl Firing {
    // The ticks left, none of an idle actor.
    pub fn left(self) -> u16
        ensures { result ≡ left_of self }
    {
        match self {
            Firing::Idle => 0,
            Firing::UnderWay(left) => left,
        }
    }

    // What the event makes of it.
    pub(crate) fn after(self, event: Event) -> Firing
        ensures { result ≡ after self event }
    {
        match (self, event) {
            (_, Event::Start(time)) => Firing::UnderWay(time),
            (Firing::UnderWay(was), Event::Served(left)) if was > 0 && left > 0 => Firing::UnderWay(
                left,
            ),
            _ => Firing::Idle,
        }
    }
}

// Whether a firing that was under way is so no more.
pub fn ends(was: Firing, is: Firing) -> bool
    ensures { result ≡ (nat_lt 0 (left_of was) && left_of is == 0) }
{
    was.left() > 0 && is.left() == 0
}
