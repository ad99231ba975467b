ghost use Rattle.std.specs.Prelude.{◌≡◌, ℕ, ◌+◌, ◌-◌, ◌<◌, ◌≤◌, true, false, length, nat_lt, slice_index};
ghost use Rattle.std.specs.List.{find, range_with_len};
ghost use Rattle.policy.specs.Meaning.{View, Sound, Served, Cleared, Laid, layable};
ghost use Rattle.policy.specs.Works.{WorksChecked, RowsMade, RowsLaid, RowsCleared, works_of, lefts_of};
ghost use Rattle.policy.specs.Turns.{total, next, round, ringed, RingTicks};
ghost use Rattle.policy.specs.Rings.{ring_sound, ring_ticks};
ghost use Rattle.std.proofs.Common.{rules};

use crate::fault::Fault;
use crate::meaning::Policy;
use crate::round::after;
use crate::rows::Rows;

// One processor, which goes round the actors that have work left.
#[derive(Drop)]
pub struct Ring {
    rows: Rows,
    // Whose turn it is, or was last.
    turn: u8,
    // Whether it still is. No Option of a turn: also from one that is over the next goes round.
    busy: bool,
    ghost on: { turn ≤ length rows.list.items - 1 },
    ghost going: { busy ≡ true → 0 < slice_index (lefts_of rows.list.items) turn },
}

impl Ring {
    // Whether these works can be shared so.
    pub fn check(works: &[u16]) -> Result<(), Fault>
        ensures { WorksChecked works.now result }
    {
        Rows::check(works)
    }

    // One actor for each work, the last one's turn just over; no actors where the check refuses.
    pub fn new(works: &[u16]) -> Ring
        ensures made { RowsMade works.now result.rows.list.items }
        ensures turn { (result.turn ≡ length result.rows.list.items - 1) × (result.busy ≡ false) }
    {
        let rows = Rows::new(works);
        let turn = rows.number().saturating_sub(1);
        Ring {
            rows,
            turn,
            busy: false,
        }
    }

    // The first actor from `a` up to `b` that has work left.
    fn first(&self, a: u8, b: u8) -> Option<u8>
        ensures { result ≡ find (λ x. nat_lt 0 (slice_index (lefts_of self.now.rows.list.items) x)) (range_with_len a (b - a)) }
    {
        (a..b).find(|x| self.rows.left(*x) > 0)
    }

    // Who is served at the next tick.
    fn next(&self) -> Option<u8>
        ensures { result ≡ next (length self.now.rows.list.items) (lefts_of self.now.rows.list.items) self.now.turn self.now.busy }
    {
        if self.busy {
            return Some(self.turn);
        }
        let past = self.turn + 1;
        self.first(past, self.rows.number())
            .or_else(|| self.first(0, past))
    }

    // The works of all actors together.
    fn total(&self) -> u16
        ensures { result ≡ total (works_of self.now.rows.list.items) (length self.now.rows.list.items) }
    {
        self.rows.total(self.rows.number())
    }

    // The works after the turn's actor, going round to and including another's.
    fn round(&self, b: u8) -> u16
        ensures { result ≡ round (works_of self.now.rows.list.items) (length self.now.rows.list.items) self.now.turn b }
    {
        // Step by step: sums over the rows take longer where there are one or two actors.
        let n = self.rows.number();
        let mut at = self.turn;
        let mut sum = 0;
        for _step in 0..n {
            at = after(n, at);
            sum += self.rows.work(at);
            if at == b {
                return sum;
            }
        }
        sum
    }
}

impl Policy for Ring {
    ghost view = { λ p. ringed (length p.rows.list.items) (works_of p.rows.list.items) (lefts_of p.rows.list.items) p.turn p.busy };

    ghost ticks = { λ p q. RingTicks (length p.rows.list.items) (works_of p.rows.list.items) (lefts_of p.rows.list.items) p.turn p.busy (length q.rows.list.items) (works_of q.rows.list.items) (lefts_of q.rows.list.items) q.turn q.busy };

    ghost lays = { λ p a q. RowsLaid p.rows.list.items a q.rows.list.items × (q.turn ≡ p.turn) × (q.busy ≡ p.busy) };

    ghost clears = { λ p q. RowsCleared p.rows.list.items q.rows.list.items × (q.turn ≡ p.turn) × (q.busy ≡ false) };

    ghost sound = { λ p. ring_sound p.rows p.turn p.busy p.on p.going };

    ghost ticked = { λ p q. ring_ticks p.rows p.turn p.busy p.on p.going q.rows q.turn q.busy };

    ghost laid = { Prim.search rules };

    ghost cleared = { Prim.search rules };

    fn number(&self) -> u8 {
        self.rows.number()
    }

    fn work(&self, a: u8) -> u16 {
        self.rows.work(a)
    }

    fn promise(&self, a: u8) -> u16 {
        if a < self.rows.number() {
            self.total()
        } else {
            0
        }
    }

    fn left(&self, a: u8) -> u16 {
        self.rows.left(a)
    }

    fn due(&self, a: u8) -> u16 {
        let left = self.rows.left(a);
        if left == 0 {
            return 0;
        }
        if !self.busy {
            return self.round(a);
        }
        if a == self.turn {
            return left;
        }
        self.rows.left(self.turn) + self.round(a)
    }

    fn serve(&mut self) {
        if let Some(a) = self.next() {
            self.rows.serve_one(a);
            self.turn = a;
            self.busy = self.rows.left(a) > 0;
        }
    }

    fn clear(&mut self) {
        self.busy = false;
        self.rows.clear();
    }

    fn lay(&mut self, a: u8) -> bool {
        self.rows.lay(a)
    }
}
