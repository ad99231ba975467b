ghost use Rattle.std.specs.Prelude.{◌≡◌};
ghost use Rattle.policy.specs.Runs.{EndsWithin};

use crate::meaning::Policy;

// The ticks between which an actor's work ends, if it goes on being served: its left and its due.
pub fn window<P: Policy>(policy: &P, a: u8) -> (u16, u16)
    ensures value { (result.0 ≡ (P.Policy.view policy.now).left a) × (result.1 ≡ (P.Policy.view policy.now).due a) }
    ensures ends { EndsWithin P.Policy policy.now a result.0 result.1 }
{
    (policy.left(a), policy.due(a))
}
