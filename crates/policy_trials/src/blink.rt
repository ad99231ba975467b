ghost use Rattle.std.specs.Prelude.{◌≡◌, ℕ, ◌≤◌, true, false};
ghost use Rattle.policy.specs.Meaning.{View, Sound, Served, Cleared, Laid, layable};
ghost use Rattle.policy_trials.specs.Blink.{blinked, BlinkTicks, BlinkLays, BlinkClears};
ghost use Rattle.std.proofs.Common.{rules};

use policy::Policy;

// One actor, served every other tick.
#[derive(Drop)]
pub struct Blink {
    work: u16,
    left: u16,
    awake: bool,
    ghost few: { work ≤ 4095 },
    ghost under: { left ≤ work },
}

impl Blink {
    // Awake at the first tick; a work over 4,095 is cut to that.
    pub fn new(work: u16) -> Blink
        ensures { (result.left ≡ 0) × ((result.awake ≡ true) × ((work ≤ 4095 → result.work ≡ work))) }
    {
        Blink {
            work: work.min(4095),
            left: 0,
            awake: true,
        }
    }
}

impl Policy for Blink {
    ghost view = { λ p. blinked p.work p.left p.awake };

    ghost ticks = { λ p q. BlinkTicks p.work p.left p.awake q.work q.left q.awake };

    ghost lays = { λ p a q. BlinkLays p.work p.left p.awake a q.work q.left q.awake };

    ghost clears = { λ p q. BlinkClears p.work p.awake q.work q.left q.awake };

    ghost sound = { Prim.search rules };

    ghost ticked = { Prim.search rules };

    ghost laid = { Prim.search rules };

    ghost cleared = { Prim.search rules };

    fn number(&self) -> u8 {
        1
    }

    fn work(&self, a: u8) -> u16 {
        if a == 0 { self.work } else { 0 }
    }

    fn promise(&self, a: u8) -> u16 {
        if a == 0 { 2 * self.work } else { 0 }
    }

    fn left(&self, a: u8) -> u16 {
        if a == 0 { self.left } else { 0 }
    }

    fn due(&self, a: u8) -> u16 {
        if a != 0 || self.left == 0 {
            return 0;
        }
        if self.awake {
            2 * self.left - 1
        } else {
            2 * self.left
        }
    }

    fn serve(&mut self) {
        let awake = self.awake;
        self.awake = !awake;
        if awake && self.left > 0 {
            self.left -= 1;
        }
    }

    fn clear(&mut self) {
        self.left = 0;
    }

    fn lay(&mut self, a: u8) -> bool {
        if a != 0 || self.left > 0 {
            return false;
        }
        self.left = self.work;
        true
    }
}
