// How the moves of each actor come to stand together.
ghost use Rattle.std.specs.Prelude.{◌≡◌};

use crate::list::{Move, MoveList};
use crate::moves::Moves;
use crate::store::Store;

impl Moves {
    // The moves at these stores; a store without an owner below 16 is nobody's.
    pub fn of(stores: [Store; 64]) -> Moves
        ensures { result.stores ≡ stores }
    {
        let mut lists = [MoveList::EMPTY; 16];
        for (e, store) in stores.iter().enumerate() {
            if let Some(a) = store.owner {
                if a < 16 {
                    lists[a as usize].push(Move {
                        store: e as u8,
                        rate: store.rate,
                    });
                }
            }
        }
        Moves { stores, lists }
    }
}
