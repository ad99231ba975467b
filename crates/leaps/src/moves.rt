ghost use Rattle.std.specs.Prelude.{◌≡◌, ℕ};
ghost use Rattle.leaps.specs.Stores.{list_at, moves_of};

use crate::list::MoveList;
use crate::store::Store;

// What a firing of each actor moves, by actor: a rate at each of its stores.
#[derive(Clone, Copy)]
pub struct Moves {
    pub stores: [Store; 64],
    // By actor: the moves at its stores, in order, so that a firing need not look at those of others.
    pub lists: [MoveList; 16],
    ghost listed: { (a : ℕ) → list_at lists a ≡ moves_of stores a },
}
