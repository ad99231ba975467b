// Rate: from when on a run repeats, how often and how much, or when it comes to a standstill.
ghost use Rattle.std.specs.Prelude.{◌≡◌, ◌≤◌, length};
ghost use Rattle.model.specs.Meaning.{RateMeans};
ghost use Rattle.runs.specs.Seen.{net, at, times_of, reps_of, state};
ghost use Rattle.rates.specs.Rates.{last_tick, told, Rated, unhindered, Unbeaten, Judged};
ghost use Rattle.rates.specs.Rows.{leaves, Rising, Upto};

use crate::fault::Fault;
use crate::sample::Sample;
use graph::Graph;
use runs::{Run, times};
use table::Table;

// The last tick that a run is followed to.
pub const LAST_TICK: u32 = 10_000_000;

// What a run comes to.
#[derive(Clone, Copy, PartialEq, Eq, Debug)]
pub enum Rate {
    // From tick f on, any d ticks see m times the repetition counts.
    Repeats { f: u32, d: u32, m: u32 },
    // From tick f on nothing is under way.
    Standstill { f: u32 },
}

// What a tick tells, after its starts: the rate, once it is known. A due sample that is like no row takes one.
fn judged(run: &Run<'_>, due: bool, table: &mut Table<'_, Sample>) -> Result<Option<Rate>, Fault>
    requires few { (table.old.used ≤ run.now.tick) × (run.now.tick ≤ last_tick) }
    requires tops { Upto run.now.tick table.old.rows.now table.old.used }
    ensures value { Judged (net run.now.graph.now) (state run.now) due run.now.tick table.old.rows.now table.old.used table.new.rows.now table.new.used result }
    ensures rising { Rising table.old.rows.now table.old.used → Rising table.new.rows.now table.new.used }
    ensures lender { table.new.rows.ghost_name ≡ table.old.rows.ghost_name }
{
    let tick = run.tick();
    if run.is_still() {
        return Ok(Some(Rate::Standstill { f: tick }));
    }
    if !due {
        return Ok(None);
    }
    let row = Sample::from(run);
    let Some(r) = table.find(&row) else {
        table.add(row).map_err(|_| Fault::NoRow)?;
        return Ok(None);
    };
    let f = table.row(r).unwrap().tick;
    Ok(Some(Rate::Repeats {
        f,
        d: tick - f,
        m: (table.len() - r) as u32,
    }))
}

// The rate of a graph's run with a table of times.
pub(crate) fn rate_with(graph: &Graph, times: [u16; 16], rows: &mut [Sample]) -> Result<Rate, Fault>
    ensures { Rated (net graph.now) (at times) (reps_of graph.now 0) rows.old rows.new result }
{
    let rep = u32::from(graph.counts()[0]);
    let mut run = Run::new(graph, times);
    let mut table = Table::over(rows);
    let mut due = true;
    'ticks: loop {
        if let Some(rate) = judged(&run, due, &mut table)? {
            return Ok(rate);
        }
        if run.tick() == LAST_TICK {
            return Err(Fault::LastTick);
        }
        let done = run.next();
        due = done[0] && run.ended(0) % rep == 0;
    }
}

// The rate of the unhindered run, with the caller's rows for its samples.
pub fn unhindered_rate(graph: &Graph, rows: &mut [Sample]) -> Result<Rate, Fault>
    ensures value { result ≡ told (unhindered graph.now rows.old).answer }
    ensures after { rows.new ≡ leaves (net graph.now) (times_of graph.now) (unhindered graph.now rows.old).taken rows.old }
    ensures rising { Rising rows.new (length (unhindered graph.now rows.old).taken) }
    ensures means { RateMeans (net graph.now) (times_of graph.now) (reps_of graph.now) (length rows.old) (unhindered graph.now rows.old) }
    ensures fastest { Unbeaten graph.now }
{
    rate_with(graph, times(graph), rows)
}
