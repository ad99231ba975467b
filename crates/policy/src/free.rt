ghost use Rattle.std.specs.Prelude.{◌≡◌, ℕ, ◌+◌, ◌-◌, ◌<◌, ◌≤◌, true, false};
ghost use Rattle.policy.specs.Meaning.{View, Sound, Served, Cleared, Laid, layable};
ghost use Rattle.policy.specs.Works.{WorksChecked, RowsMade, RowsLaid, RowsCleared, freed, FreeTicks};
ghost use Rattle.policy.specs.Rings.{free_sound};
ghost use Rattle.std.proofs.Common.{rules};

use crate::fault::Fault;
use crate::meaning::Policy;
use crate::rows::Rows;

// Nobody waits for another.
#[derive(Drop)]
pub struct Free {
    rows: Rows,
}

impl Free {
    // Whether these works can be shared so.
    pub fn check(works: &[u16]) -> Result<(), Fault>
        ensures { WorksChecked works.now result }
    {
        Rows::check(works)
    }

    // One actor for each work, or no actors where the check refuses.
    pub fn new(works: &[u16]) -> Free
        ensures { RowsMade works.now result.rows.list.items }
    {
        Free {
            rows: Rows::new(works),
        }
    }
}

impl Policy for Free {
    ghost view = { λ p. freed p.rows.list.items };

    ghost ticks = { λ p q. FreeTicks p.rows.list.items q.rows.list.items };

    ghost lays = { λ p a q. RowsLaid p.rows.list.items a q.rows.list.items };

    ghost clears = { λ p q. RowsCleared p.rows.list.items q.rows.list.items };

    ghost sound = { λ p. free_sound p.rows };

    ghost ticked = { Prim.search rules };

    ghost laid = { Prim.search rules };

    ghost cleared = { Prim.search rules };

    fn number(&self) -> u8 {
        self.rows.number()
    }

    fn work(&self, a: u8) -> u16 {
        self.rows.work(a)
    }

    fn promise(&self, a: u8) -> u16 {
        self.rows.work(a)
    }

    fn left(&self, a: u8) -> u16 {
        self.rows.left(a)
    }

    fn due(&self, a: u8) -> u16 {
        self.rows.left(a)
    }

    fn serve(&mut self) {
        self.rows.serve_all();
    }

    fn clear(&mut self) {
        self.rows.clear();
    }

    fn lay(&mut self, a: u8) -> bool {
        self.rows.lay(a)
    }
}
