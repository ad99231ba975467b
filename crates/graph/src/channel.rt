// A buffer from one actor to another, perhaps the same.
#[derive(Clone, Copy, PartialEq, Eq, Debug)]
pub struct Channel {
    // the actors at its ends
    pub source: u8,
    pub dest: u8,
    // out-rate: the tokens that a firing of the source adds
    pub p: u8,
    // in-rate: the tokens that a firing of the destination takes
    pub q: u8,
    // the places that it has, and the tokens that it begins with
    pub capacity: u16,
    pub tokens: u16,
}
