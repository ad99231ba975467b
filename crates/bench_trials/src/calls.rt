use crate::benches::{counted, counts_at, refused, ticked};
use crate::files::{Line, graph};
use crate::rating::repeats;
use bench::{Answer, Bench, Call, Fault, LAST_TICK, Sample, follow, promised_rate};
use policy::{Free, Policy, Ring, Slice};
use std::test::Fail;

// Under a ring A ends at 2, 7 and 12, and B at 5 and 10.
#[test]
fn goes_round(rt: HostRuntime) -> Result<(), Fail> {
    let graph = graph(rt.alloc(), &[2, 3], &[Line(0, 1, 1, 1, 2, 0)])?;
    let mut bench = Bench::join(&graph, Ring::new(&[2, 3]));
    counts_at(&mut bench, 1, 0, 0)?;
    counts_at(&mut bench, 2, 1, 0)?;
    counts_at(&mut bench, 4, 1, 0)?;
    counts_at(&mut bench, 5, 1, 1)?;
    counts_at(&mut bench, 6, 1, 1)?;
    counts_at(&mut bench, 7, 2, 1)?;
    counts_at(&mut bench, 9, 2, 1)?;
    counts_at(&mut bench, 10, 2, 2)?;
    counts_at(&mut bench, 11, 2, 2)?;
    counts_at(&mut bench, 12, 3, 2)
}

// The turn that the restart cuts short was A's, so the next is B's.
#[test]
fn restarts_in_a_turn(rt: HostRuntime) -> Result<(), Fail> {
    let graph = graph(rt.alloc(), &[2, 3], &[Line(0, 1, 1, 1, 2, 1)])?;
    let mut bench = Bench::join(&graph, Ring::new(&[2, 3]));
    counts_at(&mut bench, 1, 0, 0)?;
    assert!(rt; bench.restart().is_ok());
    counts_at(&mut bench, 2, 0, 0)?;
    counts_at(&mut bench, 3, 0, 1)?;
    assert!(rt; bench.restart().is_ok());
    assert_eq!(rt; counted(&bench, 1)?, 0);
    assert_eq!(rt; ticked(&mut bench)?.0, 1);
    Ok(())
}

// Refusals change nothing.
#[test]
fn refused_in_between(rt: HostRuntime) -> Result<(), Fail> {
    let graph = graph(rt.alloc(), &[2, 3], &[Line(0, 1, 1, 1, 2, 0)])?;
    let mut bench = Bench::join(&graph, Ring::new(&[2, 3]));
    counts_at(&mut bench, 2, 1, 0)?;
    refused(bench.count(2), 19, 0)?;
    refused(bench.count(16), 19, 0)?;
    refused(bench.tokens(1), 19, 0)?;
    refused(bench.due(255), 19, 0)?;
    counts_at(&mut bench, 5, 1, 1)
}

// Works against times: the lowest actor concerned.
#[test]
fn refused_joins(rt: HostRuntime) -> Result<(), Fail> {
    let graph = graph(rt.alloc(), &[2, 3], &[Line(0, 1, 1, 1, 2, 0)])?;
    refused(Bench::check(&graph, &Ring::new(&[2, 4])), 16, 1)?;
    refused(Bench::check(&graph, &Free::new(&[1, 4])), 16, 0)?;
    refused(Bench::check(&graph, &Free::new(&[2])), 16, 1)?;
    refused(Bench::check(&graph, &Free::new(&[2, 3, 4])), 16, 2)?;
    refused(Bench::check(&graph, &Free::new(&[])), 16, 0)?;
    assert!(rt; Bench::check(&graph, &Free::new(&[2, 3])).is_ok());
    let mut bench = Bench::join(&graph, Free::new(&[2, 3, 4]));
    refused(bench.tick(), 16, 2)?;
    refused(bench.count(16), 16, 2)?;
    refused(bench.tokens(0), 16, 2)?;
    refused(bench.due(0), 16, 2)?;
    refused(bench.restart(), 16, 2)
}

#[test]
fn last_tick(rt: HostRuntime) -> Result<(), Fail> {
    let graph = graph(rt.alloc(), &[3], &[])?;
    let mut bench = Bench::join(&graph, Free::new(&[3]));
    for _ in 0..LAST_TICK {
        let _ = ticked(&mut bench)?;
    }
    refused(bench.tick(), 18, 0)?;
    assert_eq!(rt; counted(&bench, 0)?, 3_333_333);
    assert!(rt; bench.restart().is_ok());
    assert_eq!(rt; ticked(&mut bench)?.0, 1);
    Ok(())
}

fn number(answer: Result<Answer, Fault>) -> u32 {
    match answer {
        Ok(Answer::Ticked(tick, ended)) => tick.wrapping_mul(100).wrapping_add(u32::from(ended)),
        Ok(Answer::Counted(count)) => count,
        Ok(Answer::Held(tokens)) => u32::from(tokens),
        Ok(Answer::Owed(due)) => u32::from(due),
        Ok(Answer::Restarted) => 10_000,
        Err(fault) => 20_000 + u32::from(fault.number()),
    }
}

// Unhindered, A ends at 2 and 4 and B at 5; both rates are told, and what is past the calls stays.
#[test]
fn follows(rt: HostRuntime) -> Result<(), Fail> {
    let graph = graph(rt.alloc(), &[2, 3], &[Line(0, 1, 1, 1, 2, 0)])?;
    let calls = [
        Call::Tick,
        Call::Tick,
        Call::Count(0),
        Call::Tick,
        Call::Tick,
        Call::Tokens(0),
        Call::Tick,
        Call::Count(1),
        Call::Due(1),
        Call::Count(2),
        Call::Restart,
        Call::Tick,
    ];
    let mut answers = [Ok(Answer::Restarted); 13];
    let mut rows = [Sample::BLANK; 8];
    let mut held_rows = [Sample::BLANK; 8];
    let report = follow(
        &graph,
        Free::new(&[2, 3]),
        &calls,
        &mut answers,
        &mut rows,
        &mut held_rows,
    );
    let expected = [
        100, 201, 1, 300, 401, 1, 501, 1, 3, 20_019, 10_000, 100, 10_000,
    ];
    for (answer, number_expected) in answers.iter().zip(expected) {
        assert_eq!(rt; number(*answer), number_expected);
    }
    repeats(report.unhindered, 4, 3, 1)?;
    repeats(report.promised, 4, 3, 1)
}

// A slice of 2 in 5 over a ring promises 9 ticks to each.
#[test]
fn promised(rt: HostRuntime) -> Result<(), Fail> {
    let graph = graph(rt.alloc(), &[1, 2], &[Line(0, 1, 2, 3, 4, 0)])?;
    let mut rows = [Sample::BLANK; 8];
    repeats(
        promised_rate(&graph, &Slice::new(Ring::new(&[1, 2]), 5, 2), &mut rows),
        36,
        45,
        1,
    )?;
    let mut untouched = [Sample {
        tokens: [7; 32],
        left: [8; 16],
        tick: 9,
    }; 1];
    refused(
        promised_rate(&graph, &Ring::new(&[2, 2]), &mut untouched),
        16,
        0,
    )?;
    assert_eq!(rt; untouched[0].tick, 9);
    Ok(())
}
