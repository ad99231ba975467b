ghost use Rattle.std.specs.Prelude.{◌≡◌, ℕ, ◌+◌, ◌-◌, ◌*◌, ◌/◌, ◌<◌, ◌≤◌, true, false, nat_le};
ghost use Rattle.policy.specs.Meaning.{View, Sound, Served, Cleared, Laid, Alike, layable};
ghost use Rattle.policy.specs.Wheel.{wide, wait, Until, Longest};
ghost use Rattle.policy.specs.Slices.{turning, sliced, SliceChecked, SliceMade, SliceKeeps, SliceTicks, SliceLays};
ghost use Rattle.policy.specs.Sliced.{sliced_sound, sliced_ticks, sliced_lays, sliced_clears};

use crate::fault::Fault;
use crate::meaning::Policy;
use crate::round::after;

// The policy below, served at the first `slots` of every `period` positions of a wheel.
#[derive(Drop)]
pub struct Slice<P: Policy> {
    below: P,
    period: u8,
    slots: u8,
    wheel: u8,
    ghost on: { wheel < period },
    ghost within: { slots ≤ period },
    ghost one: { 0 < slots },
    ghost fits: { (a : ℕ) → wide period slots ((P.Policy.view below).promise a) ≤ 65535 },
}

// The promise over a promise of `d` below. Period and slots are asked for apart, here and below: a slice has them so, and its
// laws speak of each.
fn widened(period: u8, slots: u8, d: u16) -> u32
    requires { (0 < slots) × (slots ≤ period) }
    ensures { result ≡ wide period slots d }
{
    let d = d as u32;
    d + (period - slots) as u32 * d.div_ceil(slots as u32)
}

// How many stretches of other positions come before so many under `slots` have gone by.
fn stretches(slots: u32, passed: u32) -> u32
    requires { 0 < slots }
    ensures { result ≡ passed / slots }
{
    passed / slots
}

// How many ticks it takes until `d` positions under `slots` have gone by.
fn awaited(period: u8, slots: u8, wheel: u8, d: u16) -> u32
    requires { (0 < slots) × ((slots ≤ period) × (wheel < period)) }
    ensures { result ≡ wait period slots wheel d }
{
    if d == 0 {
        return 0;
    }
    let p = period as u32;
    let s = slots as u32;
    let w = wheel as u32;
    let d = d as u32;
    if w < s {
        d + (p - s) * stretches(s, w + (d - 1))
    } else {
        (p - w) + d + (p - s) * stretches(s, d - 1)
    }
}

impl<P: Policy> Slice<P> {
    // Whether the period and slots are within their limits, and every promise then fits.
    pub fn check(below: &P, period: u8, slots: u8) -> Result<(), Fault>
        ensures { SliceChecked (P.Policy.view below.now) period slots result }
    {
        if slots == 0 || slots > period {
            return Err(Fault::Limits(0));
        }
        let too_long = |a: &u8|
            requires { (0 < slots) × (slots ≤ period) }
        { widened(period, slots, below.promise(*a)) > 65535 };
        // By a match: what is found is the refusal, which `ok_or` takes for the answer, and `map_or` would tell last.
        match (0..below.number()).find(too_long) {
            Some(a) => Err(Fault::Promise(a)),
            None => Ok(()),
        }
    }

    // The wheel at 0; a period of 1 and one slot where the check refuses.
    pub fn new(below: P, period: u8, slots: u8) -> Self
        ensures value { (result.below ≡ below) × (result.wheel ≡ 0) }
        ensures made { SliceMade (P.Policy.view below) period slots result.period result.slots }
        ensures plain { Alike (turning (P.Policy.view below) result.period result.slots 0) (sliced (P.Policy.view below) result.period result.slots 0) }
    {
        let (period, slots) = if Self::check(&below, period, slots).is_ok() {
            (period, slots)
        } else {
            (1, 1)
        };
        Slice {
            below,
            period,
            slots,
            wheel: 0,
        }
    }
}

impl<P: Policy> Policy for Slice<P> {
    ghost view = { λ p. sliced (P.Policy.view p.below) p.period p.slots p.wheel };

    ghost ticks = { λ p q. SliceTicks P.Policy.ticks p.below p.period p.slots p.wheel q.below q.period q.slots q.wheel };

    ghost lays = { λ p a q. SliceLays P.Policy.view P.Policy.lays (nat_le (wide p.period p.slots ((P.Policy.view p.below).promise a)) 65535) p.below a q.below × SliceKeeps p.period p.slots p.wheel q.period q.slots q.wheel };

    ghost clears = { λ p q. P.Policy.clears p.below q.below × SliceKeeps p.period p.slots p.wheel q.period q.slots q.wheel };

    ghost sound = { λ p. sliced_sound p.period p.slots p.wheel p.one p.within p.on (P.Policy.view p.below) (P.Policy.sound p.below) };

    ghost ticked = { λ p q t. sliced_ticks P.Policy.view P.Policy.ticks p.below p.period p.slots p.wheel q.below q.period q.slots q.wheel p.one p.within p.on (P.Policy.sound p.below) P.Policy.ticked t };

    ghost laid = { λ p q a t. sliced_lays P.Policy.view p.below q.below p.period p.slots p.wheel q.period q.slots q.wheel p.one p.within p.on (P.Policy.sound p.below) t.1 P.Policy.lays P.Policy.laid a t.0 };

    ghost cleared = { λ p q t. sliced_clears P.Policy.view p.below q.below p.period p.slots p.wheel q.period q.slots q.wheel p.one p.within p.on (P.Policy.sound p.below) t.1 (P.Policy.cleared p.below q.below t.0) };

    fn number(&self) -> u8 {
        self.below.number()
    }

    fn work(&self, a: u8) -> u16 {
        self.below.work(a)
    }

    fn promise(&self, a: u8) -> u16
        ensures value { result ≡ (sliced (P.Policy.view self.now.below) self.now.period self.now.slots self.now.wheel).promise a }
        ensures longest { Longest self.now.period self.now.slots ((P.Policy.view self.now.below).promise a) result }
    {
        widened(self.period, self.slots, self.below.promise(a)) as u16
    }

    fn left(&self, a: u8) -> u16 {
        self.below.left(a)
    }

    fn due(&self, a: u8) -> u16
        ensures value { result ≡ (sliced (P.Policy.view self.now.below) self.now.period self.now.slots self.now.wheel).due a }
        ensures until { Until self.now.period self.now.slots self.now.wheel ((P.Policy.view self.now.below).due a) result }
    {
        awaited(self.period, self.slots, self.wheel, self.below.due(a)) as u16
    }

    fn serve(&mut self) {
        let position = self.wheel;
        self.wheel = after(self.period, position);
        if position < self.slots {
            self.below.serve();
        }
    }

    fn clear(&mut self) {
        self.below.clear();
    }

    fn lay(&mut self, a: u8) -> bool {
        self.below.lay(a)
    }
}
