ghost use Rattle.std.specs.Prelude.{◌≡◌, ◌<◌};
ghost use Rattle.policy.specs.Round.{after};

// The number after `x` of `n`, going round.
pub(crate) fn after(n: u8, x: u8) -> u8
    requires { x < n }
    ensures { (result ≡ after n x) × (result < n) }
{
    if x + 1 < n { x + 1 } else { 0 }
}
