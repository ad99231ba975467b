ghost use Rattle.std.specs.Prelude.{◌≡◌};
ghost use Rattle.policy.specs.Worked.{Worked, WheelLaws};

use crate::free::Free;
use crate::meaning::Policy;
use crate::slice::Slice;

// The promises of a slice of 2 in 5 over two actors of 2 and 3 ticks that are served freely.
pub fn worked_promises() -> (u16, u16)
    ensures value { (result.0 ≡ 5) × (result.1 ≡ 9) }
    ensures shown { Worked }
    ensures laws { WheelLaws }
{
    let slice = Slice::new(Free::new(&[2, 3]), 5, 2);
    (slice.promise(0), slice.promise(1))
}
