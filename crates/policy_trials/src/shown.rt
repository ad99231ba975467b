use crate::blink::Blink;
use crate::runs::{lay_all, traced};
use policy::{Free, Pair, Policy, Ring, Slice, worked_promises};
use std::test::Fail;

#[test]
fn free(rt: HostRuntime) {
    assert!(rt;
        traced(&mut Free::new(&[2, 3]), 0) == [2, 1, 0, 0, 0, 0, 0, 0, 2, 1, 0, 0, 0, 0, 0, 0]
    );
    assert!(rt;
        traced(&mut Free::new(&[2, 3]), 1) == [3, 2, 1, 0, 0, 0, 0, 0, 3, 2, 1, 0, 0, 0, 0, 0]
    );
}

#[test]
fn ring(rt: HostRuntime) {
    assert!(rt;
        traced(&mut Ring::new(&[2, 3]), 0) == [2, 1, 0, 0, 0, 0, 0, 0, 2, 1, 0, 0, 0, 0, 0, 0]
    );
    assert!(rt;
        traced(&mut Ring::new(&[2, 3]), 1) == [3, 3, 3, 2, 1, 0, 0, 0, 5, 4, 3, 2, 1, 0, 0, 0]
    );
}

#[test]
fn slice(rt: HostRuntime) {
    let mut first = Slice::new(Free::new(&[2, 3]), 5, 2);
    assert!(rt; traced(&mut first, 0) == [2, 1, 0, 0, 0, 0, 0, 0, 2, 1, 0, 0, 0, 0, 0, 0]);
    let mut second = Slice::new(Free::new(&[2, 3]), 5, 2);
    assert!(rt; traced(&mut second, 1) == [3, 2, 1, 1, 1, 1, 0, 0, 6, 5, 4, 3, 2, 1, 0, 0]);
}

#[test]
fn pair(rt: HostRuntime) {
    let mut first = Pair::new(Free::new(&[4]), Ring::new(&[2, 3]));
    assert!(rt; traced(&mut first, 0) == [4, 3, 2, 1, 0, 0, 0, 0, 4, 3, 2, 1, 0, 0, 0, 0]);
    let mut last = Pair::new(Free::new(&[4]), Ring::new(&[2, 3]));
    assert!(rt; traced(&mut last, 2) == [3, 3, 3, 2, 1, 0, 0, 0, 5, 4, 3, 2, 1, 0, 0, 0]);
}

#[test]
fn blink(rt: HostRuntime) {
    assert!(rt; traced(&mut Blink::new(3), 0) == [3, 2, 2, 1, 1, 0, 0, 0, 5, 4, 3, 2, 1, 0, 0, 0]);
}

#[test]
fn promises(rt: HostRuntime) {
    let (two, three) = worked_promises();
    assert_eq!(rt; two, 5);
    assert_eq!(rt; three, 9);
}

// Two actors of 2 and 3, each laid again as it ends: the first ends at 2, 7 and 12, the second at 5 and 10.
#[test]
fn goes_round(rt: HostRuntime) -> Result<(), Fail> {
    let mut ring = Ring::new(&[2, 3]);
    let mut ends = Vec::new(rt.alloc());
    lay_all(&mut ring);
    for tick in 1..13u8 {
        ring.serve();
        for a in 0..2 {
            if ring.lay(a) {
                ends.push(tick)?;
            }
        }
    }
    assert!(rt; ends.as_slice() == [2, 5, 7, 10, 12].as_slice());
    Ok(())
}
