ghost use Rattle.policy.specs.Meaning.{Alike};
ghost use Rattle.policy.specs.Like.{RowsLike, RingLike, SliceLike, PairLike};
ghost use Rattle.std.specs.Prelude.{ℕ, refl};
ghost use Rattle.policy.specs.Exacts.{free_exact, ring_exact};
ghost use Rattle.policy.specs.Members.{Exact as Outcomes};
ghost use Rattle.policy.specs.Overs.{outcomes as one_outcome, shows, slice_exact, pair_exact};

use crate::free::Free;
use crate::meaning::Policy;
use crate::pair::Pair;
use crate::ring::Ring;
use crate::slice::Slice;

// A policy of which each call has one outcome: like ones show the same, and each call makes like ones of them.
pub trait Exact: Policy {
    ghost like: { Self → Self → Type 0 };

    ghost same: { (p : Self) → like p p };

    ghost shown: { (p q : Self) → like p q → Alike (Self.Policy.view q) (Self.Policy.view p) };

    ghost ticking: { (p p' q q' : Self) → like p q → Self.Policy.ticks p p' → Self.Policy.ticks q q' → like p' q' };

    ghost laying: { (p p' q q' : Self) (a : ℕ) → like p q → Self.Policy.lays p a p' → Self.Policy.lays q a q' → like p' q' };

    ghost clearing: { (p p' q q' : Self) → like p q → Self.Policy.clears p p' → Self.Policy.clears q q' → like p' q' };

    // All of it together, as a policy over this one takes it.
    ghost outcomes: { Outcomes Self.Policy.own like } = { one_outcome Self.Policy.own like same shown ticking laying clearing };
}

impl Exact for Free {
    ghost like = { λ p q. RowsLike p.rows q.rows };

    ghost same = { free_exact.same };

    ghost shown = { shows free_exact };

    ghost ticking = { free_exact.ticks };

    ghost laying = { free_exact.lays };

    ghost clearing = { free_exact.clears };
}

impl Exact for Ring {
    ghost like = { RingLike };

    ghost same = { ring_exact.same };

    ghost shown = { shows ring_exact };

    ghost ticking = { ring_exact.ticks };

    ghost laying = { ring_exact.lays };

    ghost clearing = { ring_exact.clears };
}

impl<P: Exact> Exact for Slice<P> {
    ghost like = { SliceLike P.Exact.like };

    ghost same = { λ p. record { below = P.Exact.same p.below; period = refl; slots = refl; wheel = refl } };

    ghost shown = { shows (slice_exact P.Exact.outcomes) };

    ghost ticking = { (slice_exact P.Exact.outcomes).ticks };

    ghost laying = { (slice_exact P.Exact.outcomes).lays };

    ghost clearing = { (slice_exact P.Exact.outcomes).clears };
}

impl<A: Exact, B: Exact> Exact for Pair<A, B> {
    ghost like = { PairLike A.Exact.like B.Exact.like };

    ghost same = { λ p. record { first = A.Exact.same p.first; second = B.Exact.same p.second } };

    ghost shown = { shows (pair_exact A.Exact.outcomes B.Exact.outcomes) };

    ghost ticking = { (pair_exact A.Exact.outcomes B.Exact.outcomes).ticks };

    ghost laying = { (pair_exact A.Exact.outcomes B.Exact.outcomes).lays };

    ghost clearing = { (pair_exact A.Exact.outcomes B.Exact.outcomes).clears };
}
