ghost use Rattle.std.specs.Prelude.{◌≡◌, ℕ, ◌+◌, ◌-◌, ◌^◌, ◌<◌, ◌≤◌, true, false, ◌&&◌, map, sum, length, ◌==◌, ◌≢◌, nat_lt, slice_index};
ghost use Rattle.std.specs.List.{All};
ghost use Rattle.policy.specs.Works.{WorksChecked, RowsMade, RowsLaid, RowsCleared, FreeTicks, Fit, worn, emptied, works_of, lefts_of};
ghost use Rattle.policy.specs.Turns.{total};

use crate::fault::Fault;
use arrayvec::ArrayVec;

// An actor's work, and what is left of it.
#[derive(Clone, Copy, Default)]
pub struct Row {
    work: u16,
    left: u16,
}

// The rows of up to 16 actors.
#[derive(Drop)]
pub struct Rows {
    list: ArrayVec<Row, 16>,
    ghost few: { length list.items ≤ 16 },
    ghost fit: { All Fit list.items },
}

// The works of all together.
fn total(rows: &[Row]) -> u16
    requires { sum (works_of rows.now) < 2 ^ 16 }
    ensures { result ≡ sum (works_of rows.now) }
{
    rows.iter().map(|row| row.work).sum()
}

// One tick for each. Not one loop with the next: a closure that changes a row would need both their clauses.
fn serve(rows: &mut [Row])
    ensures { rows.new ≡ map worn rows.old }
{
    for row in rows.iter_mut() {
        row.left = row.left.saturating_sub(1);
    }
}

// Takes away what is left of each.
fn clear(rows: &mut [Row])
    ensures { rows.new ≡ map emptied rows.old }
{
    for row in rows.iter_mut() {
        row.left = 0;
    }
}

impl Rows {
    // Whether there are 1 to 16 works of 1 to 4,095.
    pub(crate) fn check(works: &[u16]) -> Result<(), Fault>
        ensures { WorksChecked works.now result }
    {
        if works.is_empty() || works.len() > 16 {
            return Err(Fault::Limits(0));
        }
        // By a match: what is found is the refusal, which `ok_or` takes for the answer, and `map_or` would tell last.
        match works.iter().position(|work| !(1..=4095).contains(work)) {
            Some(actor) => Err(Fault::Limits(actor as u8)),
            None => Ok(()),
        }
    }

    // No work left; no actors where the works are refused.
    pub(crate) fn new(works: &[u16]) -> Rows
        ensures { RowsMade works.now result.list.items }
    {
        let mut list = ArrayVec::new();
        if Rows::check(works).is_err() {
            return Rows { list };
        }
        for &work in works {
            list.push(Row { work, left: 0 });
        }
        Rows { list }
    }

    pub(crate) fn number(&self) -> u8
        ensures { result ≡ length self.now.list.items }
    {
        self.list.len() as u8
    }

    pub(crate) fn work(&self, a: u8) -> u16
        ensures { result ≡ slice_index (works_of self.now.list.items) a }
    {
        self.list.get(a as usize).map_or(0, |row| row.work)
    }

    pub(crate) fn left(&self, a: u8) -> u16
        ensures { result ≡ slice_index (lefts_of self.now.list.items) a }
    {
        self.list.get(a as usize).map_or(0, |row| row.left)
    }

    // The works of the first `k` actors together.
    pub(crate) fn total(&self, k: u8) -> u16
        requires { k ≤ length self.now.list.items }
        ensures { result ≡ total (works_of self.now.list.items) k }
    {
        total(&self.list[..k as usize])
    }

    // One tick for every actor.
    pub(crate) fn serve_all(&mut self)
        ensures { FreeTicks self.old.list.items self.new.list.items }
    {
        serve(self.list.as_mut_slice());
    }

    // One tick for one actor.
    pub(crate) fn serve_one(&mut self, a: u8)
        requires { (a < length self.old.list.items) × (0 < slice_index (lefts_of self.old.list.items) a) }
        ensures number { length self.new.list.items ≡ length self.old.list.items }
        ensures works { works_of self.new.list.items ≡ works_of self.old.list.items }
        ensures served { slice_index (lefts_of self.new.list.items) a ≡ slice_index (lefts_of self.old.list.items) a - 1 }
        ensures others { (b : ℕ) → (b ≢ a) → slice_index (lefts_of self.new.list.items) b ≡ slice_index (lefts_of self.old.list.items) b }
    {
        self.list[a as usize].left -= 1;
    }

    // Gives an actor its work, if it is there and has none left.
    pub(crate) fn lay(&mut self, a: u8) -> bool
        ensures value { result ≡ (nat_lt a (length self.old.list.items) && slice_index (lefts_of self.old.list.items) a == 0) }
        ensures done { result ≡ true → RowsLaid self.old.list.items a self.new.list.items }
        ensures refused { result ≡ false → self.new ≡ self.old }
    {
        match self.list.get_mut(a as usize) {
            Some(row) if row.left == 0 => {
                row.left = row.work;
                true
            }
            _ => false,
        }
    }

    // Takes away all work left.
    pub(crate) fn clear(&mut self)
        ensures { RowsCleared self.old.list.items self.new.list.items }
    {
        clear(self.list.as_mut_slice());
    }
}
