use policy::Policy;

pub fn lay_all<P: Policy>(p: &mut P) {
    for a in 0..p.number() {
        let _ = p.lay(a);
    }
}

// An actor's lefts at ticks 0 to 7, and then its dues.
pub fn traced<P: Policy>(p: &mut P, a: u8) -> [u16; 16] {
    let mut seen = [0; 16];
    lay_all(p);
    let (lefts, dues) = seen.split_at_mut(8);
    for (left, due) in lefts.iter_mut().zip(dues) {
        *left = p.left(a);
        *due = p.due(a);
        p.serve();
    }
    seen
}

// The ticks until an actor has no work left, 99 at most.
pub fn ends<P: Policy>(p: &mut P, a: u8) -> u16 {
    for t in 0..99 {
        if p.left(a) == 0 {
            return t;
        }
        p.serve();
    }
    99
}
