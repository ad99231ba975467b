// What stands in a run between two ends.
#[derive(Clone, Copy)]
pub struct Course {
    // By store: tokens by channel, and from 32 on free places by channel, so that a move names either by one number.
    pub levels: [u16; 64],
    // By actor: the tick at which its firing under way ends, if it has one.
    pub until: [Option<u32>; 16],
    // By actor: whether it may have become ready. Beside the ends and not with them: all of it is put back at each end.
    pub woken: [bool; 16],
}

impl Course {
    // Nothing stands anywhere.
    pub const REST: Course = Course {
        levels: [0; 64],
        until: [None; 16],
        woken: [true; 16],
    };
}
