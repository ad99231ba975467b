// Rows of the tokens and ticks left of a run.
ghost use Rattle.std.specs.Prelude.{◌≡◌};
ghost use Rattle.runs.specs.Seen.{net, state};
ghost use Rattle.rates.specs.Rows.{same_row, row_of};

use runs::Run;
use std::array;
use table::Record;

// What stood at a tick: the tokens by channel and the ticks left by actor, zeros after those of the graph.
#[derive(Clone, Copy, PartialEq, Eq, Debug)]
pub struct Sample {
    pub tokens: [u16; 32],
    pub left: [u16; 16],
    pub tick: u32,
}

impl Sample {
    // A row to be lent.
    pub const BLANK: Sample = Sample {
        tokens: [0; 32],
        left: [0; 16],
        tick: 0,
    };
}

impl From<&Run<'_>> for Sample {
    ghost from_gives = { λ run row. row ≡ row_of (net run.now.graph.now) (state run.now) run.now.tick };

    // What stands in a run.
    fn from(run: &Run<'_>) -> Sample {
        Sample {
            tokens: array::from_fn(|c| run.tokens(c)),
            left: array::from_fn(|a| run.left(a)),
            tick: run.tick(),
        }
    }
}

impl Record for Sample {
    ghost alike = { same_row };

    ghost stamped = { λ a. a.tick };

    // By hand: all numbers count, and not the tick.
    fn same(&self, other: &Sample) -> bool {
        self.tokens == other.tokens && self.left == other.left
    }

    fn stamp(&self) -> u32 {
        self.tick
    }
}
