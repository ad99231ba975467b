use crate::blink::Blink;
use crate::runs::{ends, lay_all};
use policy::{Free, Pair, Policy, Ring, Slice};
use std::test::Fail;

// With every actor laid: the promise, the due and the end of one of them.
fn timed<P: Policy>(p: &mut P, a: u8, promise: u16, due: u16) -> Result<(), Fail> {
    lay_all(p);
    if p.promise(a) != promise || p.due(a) != due || ends(p, a) != due {
        return Err(Fail::new("other ticks"));
    }
    Ok(())
}

#[test]
fn three_wheels_over_a_ring() -> Result<(), Fail> {
    let ring = Slice::new(Ring::new(&[2, 3]), 3, 2);
    let mut pile = Slice::new(Slice::new(ring, 4, 3), 2, 1);
    timed(&mut pile, 1, 22, 17)
}

#[test]
fn wheel_over_a_pair() -> Result<(), Fail> {
    let pair = Pair::new(Slice::new(Ring::new(&[1, 2]), 3, 1), Free::new(&[4]));
    let mut pile = Slice::new(pair, 5, 2);
    timed(&mut pile, 1, 24, 16)
}

#[test]
fn pair_over_wheels() -> Result<(), Fail> {
    let wheels = Slice::new(Slice::new(Free::new(&[3]), 2, 1), 3, 2);
    let mut pile = Pair::new(Pair::new(wheels, Ring::new(&[2, 2])), Free::new(&[5]));
    timed(&mut pile, 0, 9, 7)
}

#[test]
fn pair_of_piles(rt: HostRuntime) -> Result<(), Fail> {
    let first = Pair::new(Free::new(&[1]), Slice::new(Ring::new(&[2, 1]), 2, 1));
    let second = Slice::new(Slice::new(Slice::new(Free::new(&[2]), 2, 1), 2, 1), 2, 1);
    let mut pile = Pair::new(Slice::new(first, 3, 2), second);
    timed(&mut pile, 2, 9, 7)?;
    pile.clear();
    assert_eq!(rt; pile.left(3), 0);
    assert_eq!(rt; pile.promise(3), 16);
    Ok(())
}

#[test]
fn stranger_under_a_wheel() -> Result<(), Fail> {
    timed(&mut Slice::new(Blink::new(3), 5, 2), 0, 15, 11)
}

#[test]
fn stranger_in_a_pair() -> Result<(), Fail> {
    let pair = Pair::new(Ring::new(&[2, 3]), Slice::new(Blink::new(2), 3, 2));
    timed(&mut Slice::new(pair, 2, 1), 2, 12, 7)
}

// A ring in its turn is put under a wheel, and that into a pair; a clear moves neither ring nor wheel.
#[test]
fn used_before(rt: HostRuntime) {
    let mut ring = Ring::new(&[2, 3]);
    lay_all(&mut ring);
    ring.serve();
    let mut slice = Slice::new(ring, 5, 2);
    assert_eq!(rt; slice.due(0), 1);
    assert_eq!(rt; slice.due(1), 7);
    slice.serve();
    slice.serve();
    slice.serve();
    let mut pair = Pair::new(slice, Free::new(&[1]));
    assert_eq!(rt; pair.left(1), 2);
    assert_eq!(rt; pair.due(1), 4);
    assert!(rt; pair.lay(0));
    assert_eq!(rt; pair.due(0), 9);
    pair.clear();
    assert!(rt; pair.lay(1));
    assert_eq!(rt; pair.due(1), 13);
    assert!(rt; pair.lay(0));
    assert_eq!(rt; pair.due(0), 4);
}
