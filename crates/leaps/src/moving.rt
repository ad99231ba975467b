// What a firing of an actor does to its stores.
ghost use Rattle.std.specs.Prelude.{◌≡◌, ℕ, ◌+◌, ◌-◌, ◌<◌, ◌≤◌};
ghost use Rattle.runs.specs.Seen.{at};
ghost use Rattle.leaps.specs.Stores.{rate_of};
ghost use Rattle.leaps.specs.Moves.{IsWalk, Moved, has_all};

use crate::list::Move;
use crate::moves::Moves;

impl Moves {
    // The moves of an actor; one that is not among the 16 has none.
    fn of_actor(&self, a: usize) -> &[Move]
        ensures { IsWalk self.now a result.now }
    {
        match self.lists.get(a) {
            Some(list) => list.as_slice(),
            None => &[],
        }
    }

    // Adds the actor's rate at each of its stores.
    // One walk over a closure, for this and the taking, is no plainer: it has to ask that the closure fits what earlier moves left.
    pub fn give(&self, a: usize, levels: &mut [u16; 64])
        requires room { (e : ℕ) → e < 64 → at levels.old e + rate_of self.now.stores a e < 65536 }
        ensures { Moved ◌+◌ self.now a levels.old levels.new }
    {
        for m in self.of_actor(a) {
            levels[m.store as usize] += m.rate;
        }
    }

    // Takes the actor's rate at each of its stores.
    pub fn take(&self, a: usize, levels: &mut [u16; 64])
        requires has { (e : ℕ) → e < 64 → rate_of self.now.stores a e ≤ at levels.old e }
        ensures { Moved ◌-◌ self.now a levels.old levels.new }
    {
        for m in self.of_actor(a) {
            levels[m.store as usize] -= m.rate;
        }
    }

    // Whether each of the actor's stores has its rate.
    pub fn has_all(&self, a: usize, levels: &[u16; 64]) -> bool
        ensures { result ≡ has_all self.now a levels.now }
    {
        self.of_actor(a)
            .iter()
            .all(|m| m.rate <= levels[m.store as usize])
    }
}
