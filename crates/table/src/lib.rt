// A table of records in rows that somebody lends, written once for all kinds that can be compared and stamped.
#![tactic(auto)]

ghost use Rattle.std.specs.Prelude.{◌≡◌, ℕ, ◌+◌, ◌<◌, ◌≤◌, Bool, length, take};
ghost use Rattle.table.specs.Find.{FirstIs, AddedIs, RowIs, Rises, Tops};

// A kind of record: when two are the same, and the stamp, which does not count for that. So `same` is no `PartialEq`:
// two that are the same may differ in their stamps.
pub trait Record {
    ghost alike: { Self → Self → Bool };

    ghost stamped: { Self → ℕ };

    fn same(&self, other: &Self) -> bool
        ensures { result ≡ alike self.now other.now };

    fn stamp(&self) -> u32
        ensures { result ≡ stamped self.now };
}

// The rows of a lender, of which the first `used` are taken. Rows and number stand side by side, since a table makes
// do with the memory that it is lent, and no list grows in it.
#[derive(Drop)]
pub struct Table<'a, R: Record> {
    rows: &'a mut [R],
    used: usize,
    ghost within: { used ≤ length rows.now },
}

impl<'a, R: Record> Table<'a, R> {
    // A table over the lender's rows, none of them taken.
    pub fn over(rows: &'a mut [R]) -> Table<'a, R>
        ensures used { result.used ≡ 0 }
        ensures rows { result.rows.now ≡ rows.old }
        ensures lender { result.rows.ghost_name ≡ rows.entry.ghost_name }
    {
        Table { rows, used: 0 }
    }

    // How many rows are taken.
    pub fn len(&self) -> usize
        ensures { result ≡ self.now.used }
    {
        self.used
    }

    // The rows that are taken.
    fn taken(&self) -> &[R]
        ensures { result.now ≡ take self.now.used self.now.rows.now }
    {
        &self.rows[..self.used]
    }

    // The taken row of that number.
    pub fn row(&self, at: usize) -> Option<&R>
        ensures { RowIs self.now.rows.now self.now.used at result }
    {
        self.taken().get(at)
    }

    // The first taken row that is the same as the record, if there is one.
    pub fn find(&self, record: &R) -> Option<usize>
        ensures { FirstIs R.Record.alike self.now.rows.now self.now.used «record».now result }
    {
        self.taken().iter().position(|row| row.same(record))
    }

    // Puts the record into the next row and answers its number, or gives it back where no row is spare.
    pub fn add(&mut self, record: R) -> Result<usize, R>
    where
        R: Drop,
        ensures done { AddedIs self.old.rows.now self.old.used «record» self.new.rows.now self.new.used result }
        ensures rising { Rises R.Record.stamped self.old.rows.now self.old.used → Tops R.Record.stamped self.old.rows.now self.old.used (R.Record.stamped «record») → Rises R.Record.stamped self.new.rows.now self.new.used }
        ensures lender { self.new.rows.ghost_name ≡ self.old.rows.ghost_name }
    {
        let at = self.used;
        if at >= self.rows.len() {
            return Err(record);
        }
        // By index: of a row that is lent by `get_mut` a proof knows nothing once it is written.
        self.rows[at] = record;
        self.used += 1;
        Ok(at)
    }
}
