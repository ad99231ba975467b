// Repetition counts: the least that balance every channel.
ghost use Rattle.std.specs.Prelude.{◌≡◌, ℕ, ◌+◌, ◌<◌};
ghost use Rattle.graph.specs.Counts.{LagsIs, Ones, CountsIs};

use crate::wiring::Wiring;

impl Wiring<'_> {
    // The actor that lags behind on the first channel out of balance, if there is one.
    fn lagging(&self, counts: &[u16; 16]) -> Option<usize>
        ensures { LagsIs self.now.channels.now counts.now result }
    {
        for channel in self.channels {
            let source = channel.source as usize;
            let dest = channel.dest as usize;
            let made = channel.p as u32 * counts[source] as u32;
            let used = channel.q as u32 * counts[dest] as u32;
            if made < used {
                return Some(source);
            }
            if used < made {
                return Some(dest);
            }
        }
        None
    }

    // A count of 1 for each of the actors.
    fn ones(&self) -> [u16; 16]
        ensures { Ones self.now.actors result }
    {
        let mut counts = [0; 16];
        counts[..self.actors].fill(1);
        counts
    }

    // The least counts, of 1 to 4096, that balance every channel, if there are any. A count that lags is too low in
    // every solution, so it is raised by one until none lags.
    pub fn counts(&self) -> Option<[u16; 16]>
        ensures { CountsIs self.now.actors self.now.channels.now result }
    {
        let mut counts = self.ones();
        while let Some(actor) = self.lagging(&counts) {
            if counts[actor] >= 4096 {
                return None;
            }
            counts[actor] += 1;
        }
        Some(counts)
    }
}
