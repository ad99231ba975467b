// Which actors the channels, taken without direction, join to actor 0.
ghost use Rattle.std.specs.Prelude.{◌≡◌, ℕ, ◌<◌};
ghost use Rattle.graph.specs.Piece.{BorderIs, Marks, UnmarkedIs, ApartIs};

use crate::wiring::Wiring;

impl Wiring<'_> {
    // The unmarked end of the first channel that has one end marked, if there is one.
    fn border(&self, marks: &[bool; 16]) -> Option<usize>
        ensures { BorderIs self.now.channels.now marks.now result }
    {
        for channel in self.channels {
            let source = channel.source as usize;
            let dest = channel.dest as usize;
            if marks[source] && !marks[dest] {
                return Some(dest);
            }
            if marks[dest] && !marks[source] {
                return Some(source);
            }
        }
        None
    }

    // Marks the actors that channels join to actor 0.
    fn joined(&self) -> [bool; 16]
        ensures { Marks self.now.channels.now result }
    {
        let mut marks = [false; 16];
        marks[0] = true;
        while let Some(actor) = self.border(&marks) {
            marks[actor] = true;
        }
        marks
    }

    // The lowest of the actors that has no mark, if there is one.
    fn unmarked(&self, marks: &[bool; 16]) -> Option<usize>
        ensures { UnmarkedIs self.now.actors marks.now result }
    {
        marks[..self.actors].iter().position(|marked| !*marked)
    }

    // The lowest of the actors that channels do not join to actor 0, if there is one.
    pub fn apart(&self) -> Option<usize>
        ensures { ApartIs self.now.actors self.now.channels.now result }
    {
        self.unmarked(&self.joined())
    }
}
