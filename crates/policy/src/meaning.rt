ghost use Rattle.std.specs.Prelude.{◌≡◌, ℕ, true, false};
ghost use Rattle.policy.specs.Meaning.{View, Sound, Served, Cleared, Laid, layable};

// What shares a card between actors, tick by tick.
pub trait Policy {
    // What is seen of each actor.
    ghost view: { Self → View };

    // What one tick, a lay that is done and a clear do, exactly.
    ghost ticks: { Self → Self → Type 0 };

    ghost lays: { Self → ℕ → Self → Type 0 };

    ghost clears: { Self → Self → Type 0 };

    // How many actors there are.
    fn number(&self) -> u8
        ensures { result ≡ (view self.now).number };

    // The ticks of service that each firing of an actor takes.
    fn work(&self, a: u8) -> u16
        ensures { result ≡ (view self.now).work a };

    // The most ticks from a lay to the end of the work.
    fn promise(&self, a: u8) -> u16
        ensures { result ≡ (view self.now).promise a };

    // The work left.
    fn left(&self, a: u8) -> u16
        ensures { result ≡ (view self.now).left a };

    // The most ticks until no work is left.
    fn due(&self, a: u8) -> u16
        ensures { result ≡ (view self.now).due a };

    // One tick.
    fn serve(&mut self)
        ensures { ticks self.old self.new };

    // Takes away all work left.
    fn clear(&mut self)
        ensures { clears self.old self.new };

    // Gives an actor its work, if it is there and has none left.
    fn lay(&mut self, a: u8) -> bool
        ensures value { result ≡ layable (view self.old) a }
        ensures done { result ≡ true → lays self.old a self.new }
        ensures refused { result ≡ false → self.new ≡ self.old };

    ghost sound: { (p : Self) → Sound (view p) };

    ghost ticked: { (p q : Self) → ticks p q → Served (view p) (view q) };

    ghost laid: { (p q : Self) (a : ℕ) → lays p a q → Laid (view p) (view q) a };

    ghost cleared: { (p q : Self) → clears p q → Cleared (view p) (view q) };
}
