use policy::{Fault, Free, Pair, Policy, Ring, Slice};
use std::test::Fail;

fn refused(answer: Result<(), Fault>, number: u8, place: u8) -> Result<(), Fail> {
    let Err(fault) = answer else {
        return Err(Fail::new("accepted"));
    };
    if fault.layer() != "policy" || fault.number() != number || fault.place() != place {
        return Err(Fail::new("another refusal"));
    }
    Ok(())
}

#[test]
fn works(rt: HostRuntime) -> Result<(), Fail> {
    refused(Free::check(&[]), 14, 0)?;
    refused(Free::check(&[1; 17]), 14, 0)?;
    refused(Free::check(&[0; 17]), 14, 0)?;
    refused(Free::check(&[1, 4096]), 14, 1)?;
    refused(Ring::check(&[1, 2, 0, 4096]), 14, 2)?;
    refused(Ring::check(&[]), 14, 0)?;
    assert!(rt; Free::check(&[4095; 16]).is_ok());
    assert!(rt; Ring::check(&[1]).is_ok());
    Ok(())
}

#[test]
fn slices(rt: HostRuntime) -> Result<(), Fail> {
    refused(Slice::check(&Free::new(&[1]), 5, 0), 14, 0)?;
    refused(Slice::check(&Free::new(&[1]), 4, 5), 14, 0)?;
    refused(Slice::check(&Free::new(&[1]), 0, 0), 14, 0)?;
    refused(Slice::check(&Free::new(&[4095]), 255, 1), 15, 0)?;
    refused(Slice::check(&Free::new(&[257, 258, 258]), 255, 1), 15, 1)?;
    assert!(rt; Slice::check(&Free::new(&[257]), 255, 1).is_ok());
    assert!(rt; Slice::check(&Free::new(&[4095]), 255, 255).is_ok());
    Ok(())
}

#[test]
fn pairs(rt: HostRuntime) -> Result<(), Fail> {
    refused(Pair::check(&Free::new(&[1; 9]), &Ring::new(&[1; 8])), 13, 0)?;
    assert!(rt; Pair::check(&Free::new(&[1; 9]), &Ring::new(&[1; 7])).is_ok());
    Ok(())
}

// Free and ring have no actors then.
#[test]
fn works_regardless(rt: HostRuntime) {
    let mut free = Free::new(&[5, 0]);
    assert_eq!(rt; free.number(), 0);
    assert_eq!(rt; free.work(0), 0);
    assert!(rt; !free.lay(0));
    let mut ring = Ring::new(&[]);
    assert_eq!(rt; ring.number(), 0);
    assert!(rt; !ring.lay(0));
    ring.serve();
    assert_eq!(rt; ring.promise(0), 0);
    assert_eq!(rt; ring.due(0), 0);
}

// A slice has P = 1 and s = 1 then.
#[test]
fn slice_regardless(rt: HostRuntime) {
    let mut slice = Slice::new(Free::new(&[4095]), 255, 1);
    assert_eq!(rt; slice.promise(0), 4095);
    assert!(rt; slice.lay(0));
    slice.serve();
    slice.serve();
    assert_eq!(rt; slice.left(0), 4093);
    assert_eq!(rt; slice.due(0), 4093);
}

// A pair shows the first's actors only then.
#[test]
fn pair_regardless(rt: HostRuntime) {
    let mut pair = Pair::new(Free::new(&[1; 9]), Free::new(&[2; 8]));
    assert_eq!(rt; pair.number(), 9);
    assert_eq!(rt; pair.work(8), 1);
    assert_eq!(rt; pair.work(9), 0);
    assert!(rt; !pair.lay(9));
    assert!(rt; pair.lay(8));
}

// An absent actor has nothing, and no lay is done twice.
#[test]
fn absent(rt: HostRuntime) {
    let mut pile = Slice::new(Pair::new(Ring::new(&[2, 3]), Free::new(&[4])), 5, 2);
    assert_eq!(rt; pile.number(), 3);
    assert_eq!(rt; pile.work(3), 0);
    assert_eq!(rt; pile.promise(3), 0);
    assert_eq!(rt; pile.left(255), 0);
    assert_eq!(rt; pile.due(3), 0);
    assert!(rt; !pile.lay(3));
    assert!(rt; pile.lay(2));
    assert!(rt; !pile.lay(2));
    assert_eq!(rt; pile.left(2), 4);
}
