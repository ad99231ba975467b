ghost use Rattle.std.specs.Prelude.{◌≡◌, ◌==◌};

use table::Record;

// A kind of record that can't be copied: the same by what was seen, stamped by when.
#[derive(Drop)]
pub struct Sight {
    pub what: u8,
    pub when: u32,
}

impl Record for Sight {
    ghost alike = { λ a b. (a.what == b.what) };

    ghost stamped = { λ a. a.when };

    // By hand: what was seen counts, and not when.
    fn same(&self, other: &Sight) -> bool {
        self.what == other.what
    }

    fn stamp(&self) -> u32 {
        self.when
    }
}
