use crate::benches::refused;
use crate::files::{Line, graph};
use bench::{Fault, Rate, Sample, unhindered_rate};
use std::alloc::Global;
use std::test::Fail;

// Rate's answer with 32 rows.
fn rate(heap: Global, times: &[u16], lines: &[Line]) -> Result<Result<Rate, Fault>, Fail> {
    let graph = graph(heap, times, lines)?;
    let mut rows = [Sample::BLANK; 32];
    Ok(unhindered_rate(&graph, &mut rows))
}

pub fn repeats(answer: Result<Rate, Fault>, f: u32, d: u32, m: u32) -> Result<(), Fail> {
    if answer != Ok(Rate::Repeats { f, d, m }) {
        return Err(Fail::new("another rate"));
    }
    Ok(())
}

fn stops(answer: Result<Rate, Fault>, f: u32) -> Result<(), Fail> {
    if answer != Ok(Rate::Standstill { f }) {
        return Err(Fail::new("another answer"));
    }
    Ok(())
}

// The runs that docs/runs.md works out.
#[test]
fn worked_runs(rt: HostRuntime) -> Result<(), Fail> {
    let heap = rt.alloc();
    repeats(rate(heap, &[2], &[])?, 0, 2, 1)?;
    repeats(rate(heap, &[2, 3], &[Line(0, 1, 1, 1, 1, 0)])?, 2, 5, 1)?;
    repeats(rate(heap, &[2, 3], &[Line(0, 1, 1, 1, 2, 0)])?, 4, 3, 1)?;
    repeats(rate(heap, &[1, 2], &[Line(0, 1, 2, 3, 4, 0)])?, 5, 7, 1)?;
    stops(rate(heap, &[1, 2], &[Line(0, 1, 2, 3, 3, 0)])?, 1)?;
    stops(rate(heap, &[2], &[Line(0, 0, 1, 1, 1, 1)])?, 0)?;
    repeats(rate(heap, &[2], &[Line(0, 0, 1, 1, 2, 1)])?, 0, 2, 1)
}

// Without rows the first sample is refused, unless the run stands still at once.
#[test]
fn no_rows(rt: HostRuntime) -> Result<(), Fail> {
    let mut rows = [];
    refused(
        unhindered_rate(&graph(rt.alloc(), &[2], &[])?, &mut rows),
        17,
        0,
    )?;
    stops(
        unhindered_rate(
            &graph(rt.alloc(), &[2], &[Line(0, 0, 1, 1, 1, 1)])?,
            &mut rows,
        ),
        0,
    )
}

// The rows taken hold what stood at their ticks, and the others stay, on a refusal too.
#[test]
fn rows_afterwards(rt: HostRuntime) -> Result<(), Fail> {
    let graph = graph(rt.alloc(), &[1, 2], &[Line(0, 1, 2, 3, 4, 0)])?;
    let old = Sample {
        tokens: [7; 32],
        left: [8; 16],
        tick: 9,
    };
    let mut rows = [old; 3];
    repeats(unhindered_rate(&graph, &mut rows), 5, 7, 1)?;
    assert_eq!(rt; rows[0].tick, 0);
    assert_eq!(rt; rows[0].tokens[0], 0);
    assert_eq!(rt; rows[0].left[0], 1);
    assert_eq!(rt; rows[0].left[1], 0);
    assert_eq!(rt; rows[1].tick, 5);
    assert_eq!(rt; rows[1].tokens[0], 0);
    assert_eq!(rt; rows[1].tokens[1], 0);
    assert_eq!(rt; rows[1].left[0], 0);
    assert_eq!(rt; rows[1].left[1], 2);
    assert_eq!(rt; rows[1].left[15], 0);
    assert_eq!(rt; rows[2].tick, 9);
    assert_eq!(rt; rows[2].tokens[31], 7);
    assert_eq!(rt; rows[2].left[15], 8);
    let mut rows = [old; 1];
    refused(unhindered_rate(&graph, &mut rows), 17, 0)?;
    assert_eq!(rt; rows[0].tick, 0);
    assert_eq!(rt; rows[0].tokens[31], 0);
    Ok(())
}

// B fires 255 times for each firing of A.
#[test]
fn repeats_after_a_million_ticks(rt: HostRuntime) -> Result<(), Fail> {
    repeats(
        rate(rt.alloc(), &[1, 4095], &[Line(0, 1, 255, 1, 255, 0)])?,
        1,
        1_044_226,
        1,
    )
}

// Channel 0 still fills while channel 1 and the ticks left repeat from tick 2 on, every 6 ticks.
#[test]
fn fills_channel_0(rt: HostRuntime) -> Result<(), Fail> {
    repeats(
        rate(
            rt.alloc(),
            &[2, 3],
            &[Line(0, 1, 1, 1, 8, 0), Line(1, 1, 1, 1, 2, 1)],
        )?,
        40,
        3,
        1,
    )
}

// One iteration takes over sixteen million ticks.
#[test]
fn last_tick(rt: HostRuntime) -> Result<(), Fail> {
    let graph = graph(
        rt.alloc(),
        &[1, 1, 4095],
        &[Line(0, 1, 255, 1, 255, 0), Line(1, 2, 16, 1, 16, 0)],
    )?;
    let mut rows = [Sample::BLANK; 3];
    refused(unhindered_rate(&graph, &mut rows), 18, 0)?;
    assert_eq!(rt; rows[0].tick, 0);
    assert_eq!(rt; rows[1].tick, 1);
    assert_eq!(rt; rows[2].tick, 0);
    Ok(())
}
