// The moves of an actor, one after another.
ghost use Rattle.std.specs.Prelude.{◌≡◌, ◌<◌, ◌≤◌, length, [], ◌∷◌, ◌++◌};

// A move of an actor's firing: the store, and the rate there.
#[derive(Clone, Copy)]
pub struct Move {
    pub store: u8,
    pub rate: u16,
}

// A length beside its buffer: no heap, and with the kit's ArrayVec, which needs none, a plan could not be Copy.
#[derive(Clone, Copy)]
pub struct MoveList {
    moves: [Move; 64],
    len: u8,
    ghost few: { len ≤ 64 },
}

impl MoveList {
    ghost use Rattle.leaps.specs.Stores.{moves_in};

    pub(crate) const EMPTY: MoveList = MoveList {
        moves: [Move { store: 0, rate: 0 }; 64],
        len: 0,
    };

    pub(crate) fn push(&mut self, m: Move)
        requires { length (moves_in self.old) < 64 }
        ensures { moves_in self.new ≡ moves_in self.old ++ m ∷ [] }
    {
        self.moves[self.len as usize] = m;
        self.len += 1;
    }

    // The moves that stand there.
    pub fn as_slice(&self) -> &[Move]
        ensures { result.now ≡ moves_in self.now }
    {
        &self.moves[..self.len as usize]
    }
}
