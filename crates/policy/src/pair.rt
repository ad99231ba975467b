ghost use Rattle.std.specs.Prelude.{◌≡◌, ℕ, ◌+◌, ◌-◌, ◌<◌, ◌≤◌, true, false};
ghost use Rattle.policy.specs.Meaning.{View, Sound, Served, Cleared, Laid, layable};
ghost use Rattle.policy.specs.Join.{side, joined, PairChecked, PairMade, PairLays};
ghost use Rattle.policy.specs.Joins.{joined_sound, joined_served, joined_cleared, joined_lays};

use crate::fault::Fault;
use crate::meaning::Policy;

// Two policies side by side, the second's actors after the first's.
#[derive(Drop)]
pub struct Pair<A: Policy, B: Policy> {
    first: A,
    second: B,
}

// Which of the two has an actor, and its number there. No `Result`: neither is a failure.
#[derive(Clone, Copy)]
enum Side {
    First(u8),
    Second(u8),
}

impl<A: Policy, B: Policy> Pair<A, B> {
    // Whether the two have 16 actors or fewer together.
    pub fn check(first: &A, second: &B) -> Result<(), Fault>
        ensures { PairChecked (A.Policy.view first.now) (B.Policy.view second.now) result }
    {
        if first.number() + second.number() > 16 {
            return Err(Fault::Crowd);
        }
        Ok(())
    }

    // Both as they are; the first's actors only where the check refuses.
    pub fn new(first: A, second: B) -> Self
        ensures value { (result.first ≡ first) × (result.second ≡ second) }
        ensures made { PairMade (A.Policy.view first) (B.Policy.view second) (joined (A.Policy.view first) (B.Policy.view second)) }
    {
        Pair { first, second }
    }

    // Matched in each call below: the two are of different types, which no one closure takes.
    fn side(&self, a: u8) -> Side
        ensures { result ≡ side (A.Policy.view self.now.first).number (B.Policy.view self.now.second).number a }
    {
        let n = self.first.number();
        if n <= a && n + self.second.number() <= 16 {
            return Side::Second(a - n);
        }
        Side::First(a)
    }
}

impl<A: Policy, B: Policy> Policy for Pair<A, B> {
    ghost view = { λ p. joined (A.Policy.view p.first) (B.Policy.view p.second) };

    ghost ticks = { λ p q. A.Policy.ticks p.first q.first × B.Policy.ticks p.second q.second };

    ghost lays = { λ p a q. PairLays A.Policy.lays B.Policy.lays (side (A.Policy.view p.first).number (B.Policy.view p.second).number a) p.first p.second q.first q.second };

    ghost clears = { λ p q. A.Policy.clears p.first q.first × B.Policy.clears p.second q.second };

    ghost sound = { λ p. joined_sound (A.Policy.view p.first) (B.Policy.view p.second) (A.Policy.sound p.first) (B.Policy.sound p.second) };

    ghost ticked = { λ p q t.
        let v = A.Policy.view in
        let w = B.Policy.view in
        joined_served (v p.first) (w p.second) (v q.first) (w q.second) (A.Policy.ticked p.first q.first t.0) (B.Policy.ticked p.second q.second t.1) };

    ghost laid = { λ p q a t. joined_lays A.Policy.view B.Policy.view A.Policy.lays B.Policy.lays A.Policy.laid B.Policy.laid p.first q.first p.second q.second a t };

    ghost cleared = { λ p q t.
        let v = A.Policy.view in
        let w = B.Policy.view in
        joined_cleared (v p.first) (w p.second) (v q.first) (w q.second) (A.Policy.cleared p.first q.first t.0) (B.Policy.cleared p.second q.second t.1) };

    fn number(&self) -> u8 {
        let n = self.first.number();
        let m = self.second.number();
        if n + m <= 16 { n + m } else { n }
    }

    fn work(&self, a: u8) -> u16 {
        match self.side(a) {
            Side::First(b) => self.first.work(b),
            Side::Second(b) => self.second.work(b),
        }
    }

    fn promise(&self, a: u8) -> u16 {
        match self.side(a) {
            Side::First(b) => self.first.promise(b),
            Side::Second(b) => self.second.promise(b),
        }
    }

    fn left(&self, a: u8) -> u16 {
        match self.side(a) {
            Side::First(b) => self.first.left(b),
            Side::Second(b) => self.second.left(b),
        }
    }

    fn due(&self, a: u8) -> u16 {
        match self.side(a) {
            Side::First(b) => self.first.due(b),
            Side::Second(b) => self.second.due(b),
        }
    }

    fn serve(&mut self) {
        self.first.serve();
        self.second.serve();
    }

    fn clear(&mut self) {
        self.first.clear();
        self.second.clear();
    }

    fn lay(&mut self, a: u8) -> bool {
        match self.side(a) {
            Side::First(b) => self.first.lay(b),
            Side::Second(b) => self.second.lay(b),
        }
    }
}
