use crate::files::{Line, graph};
use bench::{Bench, Fault};
use policy::{Free, Pair, Policy, Ring, Slice};
use policy_trials::Blink;
use std::alloc::Global;
use std::array::from_fn;
use std::test::Fail;

pub fn ticked<P: Policy>(bench: &mut Bench<'_, P>) -> Result<(u32, u8), Fail> {
    bench.tick().map_err(|_| Fail::new("no tick"))
}

pub fn counted<P: Policy>(bench: &Bench<'_, P>, a: u8) -> Result<u32, Fail> {
    bench.count(a).map_err(|_| Fail::new("no count"))
}

// Ticks to a tick number, and then two counts.
pub fn counts_at<P: Policy>(bench: &mut Bench<'_, P>, to: u32, a: u32, b: u32) -> Result<(), Fail> {
    for _ in 0..20u8 {
        let (tick, _) = ticked(bench)?;
        if tick == to {
            if counted(bench, 0)? != a || counted(bench, 1)? != b {
                return Err(Fail::new("other counts"));
            }
            return Ok(());
        }
    }
    Err(Fail::new("not reached"))
}

pub fn refused<T: Drop>(answer: Result<T, Fault>, number: u8, place: u8) -> Result<(), Fail> {
    let Err(fault) = answer else {
        return Err(Fail::new("answered"));
    };
    if fault.layer() != "bench" || fault.number() != number || fault.place() != place {
        return Err(Fail::new("another refusal"));
    }
    Ok(())
}

fn promises<P: Policy>(policy: &P) -> [u16; 16] {
    from_fn(|a| policy.promise(a as u8))
}

// Compares the counts of a bench with those of the two runs, each shown by a bench of its own.
fn lies_between<P: Policy + Drop>(
    heap: Global,
    times: &[u16],
    lines: &[Line],
    policy: P,
) -> Result<(), Fail> {
    if times.len() > 16 {
        return Err(Fail::new("too many"));
    }
    let promises = promises(&policy);
    let promises = &promises[..times.len()];
    let swift = graph(heap, times, lines)?;
    let slow = graph(heap, promises, lines)?;
    let mut shared = Bench::join(&swift, policy);
    let mut unhindered = Bench::join(&swift, Free::new(times));
    let mut promised = Bench::join(&slow, Free::new(promises));
    for _ in 0..200u8 {
        let at = ticked(&mut shared)?;
        if ticked(&mut unhindered)?.0 != at.0 || ticked(&mut promised)?.0 != at.0 {
            return Err(Fail::new("another tick"));
        }
        for a in 0..times.len() as u8 {
            let count = counted(&shared, a)?;
            if counted(&promised, a)? > count || count > counted(&unhindered, a)? {
                return Err(Fail::new("not between"));
            }
        }
    }
    Ok(())
}

const CHAIN: [Line; 2] = [Line(0, 1, 1, 1, 2, 0), Line(1, 2, 2, 1, 3, 0)];

#[test]
fn slice_over_pair(rt: HostRuntime) -> Result<(), Fail> {
    let pile = Slice::new(Pair::new(Ring::new(&[2, 3]), Free::new(&[4])), 5, 2);
    lies_between(rt.alloc(), &[2, 3, 4], &CHAIN, pile)
}

#[test]
fn slice_over_slice(rt: HostRuntime) -> Result<(), Fail> {
    let pile = Slice::new(Slice::new(Ring::new(&[2, 3]), 3, 2), 4, 3);
    lies_between(rt.alloc(), &[2, 3], &[Line(0, 1, 2, 3, 4, 1)], pile)
}

#[test]
fn a_strangers_policy(rt: HostRuntime) -> Result<(), Fail> {
    let pile = Pair::new(Blink::new(2), Free::new(&[3]));
    lies_between(rt.alloc(), &[2, 3], &[Line(0, 1, 1, 1, 2, 0)], pile)
}

// A served wheel that waits, and a ring in the middle of a turn, before they are joined.
fn used() -> Result<Slice<Ring>, Fail> {
    let mut pile = Slice::new(Ring::new(&[2, 3]), 5, 2);
    if !pile.lay(1) {
        return Err(Fail::new("no lay"));
    }
    for _ in 0..3u8 {
        pile.serve();
    }
    Ok(pile)
}

#[test]
fn a_used_policy(rt: HostRuntime) -> Result<(), Fail> {
    lies_between(rt.alloc(), &[2, 3], &[Line(0, 1, 1, 1, 2, 0)], used()?)?;
    let graph = graph(rt.alloc(), &[2, 3], &[Line(0, 1, 1, 1, 2, 0)])?;
    let mut bench = Bench::join(&graph, used()?);
    counts_at(&mut bench, 3, 0, 0)?;
    counts_at(&mut bench, 4, 1, 0)
}
