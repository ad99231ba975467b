use crate::moves::Moves;

// What a run needs of a graph.
#[derive(Clone, Copy)]
pub struct Plan {
    pub actors: usize,
    // What a start takes, and what an end gives.
    pub takes: Moves,
    pub puts: Moves,
    // By actor, a row by actor: whether an end of the first may make the second ready.
    pub wakes: [[bool; 16]; 16],
}
