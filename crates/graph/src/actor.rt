ghost use Rattle.std.specs.Str.{bytes_eq};

use table::Record;

// A task: its name, of 1 to 8 printable bytes and then zeros, and the ticks that a firing of it takes.
#[derive(Clone, Copy, PartialEq, Eq, Debug)]
pub struct Actor {
    pub name: [u8; 8],
    pub time: u16,
}

// A name that has been read, stamped with the number of its field.
#[derive(Clone, Copy)]
pub struct NameRow {
    pub name: [u8; 8],
    pub field: u8,
}

impl Record for NameRow {
    ghost alike = { λ a b. bytes_eq a.name b.name };

    ghost stamped = { λ a. a.field };

    // By hand: the names count, and not the field.
    fn same(&self, other: &NameRow) -> bool {
        self.name == other.name
    }

    fn stamp(&self) -> u32 {
        self.field as u32
    }
}
