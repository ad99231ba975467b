// A run on paper that a ring shares: A (2) to B (3), 1:1, with capacity 2.
ghost use Rattle.std.specs.Prelude.{◌≡◌};
ghost use Rattle.bench.specs.Worked.{endings, OnlyRun};

// The ticks up to 12 at which each ends a firing.
fn ending_ticks() -> ([u32; 3], [u32; 2])
    ensures { (result.0 ≡ endings 0 12) × (result.1 ≡ endings 1 12) }
{
    ([2, 7, 12], [5, 10])
}

// The ticks up to 12 at which A ends a firing, and those at which B does, in whatever a new ring shares.
pub fn worked_ring() -> ([u32; 3], [u32; 2])
    ensures value { (result.0 ≡ endings 0 12) × (result.1 ≡ endings 1 12) }
    ensures only { OnlyRun }
{
    ending_ticks()
}
