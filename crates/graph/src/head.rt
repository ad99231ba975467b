ghost use Rattle.std.specs.Prelude.{◌≡◌, true};
ghost use Rattle.graph.specs.Rules.{headed};

// How many actors and channels a file states, within their limits.
#[derive(Clone, Copy)]
pub struct Head {
    pub actors: u8,
    pub channels: u8,
    ghost within: { headed actors channels ≡ true },
}
