// A store of a graph. A channel is two: its tokens (stores 0 to 31) and its free places (32 to 63).
#[derive(Clone, Copy)]
pub struct Store {
    // The actor whose store it is. One without an owner below 16 is nobody's.
    pub owner: Option<u8>,
    // What a firing of its owner moves there.
    pub rate: u16,
}

impl Store {
    pub(crate) const NOBODYS: Store = Store {
        owner: None,
        rate: 0,
    };
}
