// A state from before request 5 by value. What each of its words is, is said and read in the crate carrying.
use crate::state::Arbiter;

// The words, with room for the old limit.
#[derive(Clone, Copy)]
pub struct OldArbiter {
    pub words: [u64; OldArbiter::WORDS],
}

impl OldArbiter {
    // D, N and the slot number stood ahead of the places.
    pub const HEAD: usize = 3;
    // Rate, burst, need, within, credit and backlog.
    pub const PLACE: usize = 6;

    pub const WORDS: usize = OldArbiter::HEAD + OldArbiter::PLACE * Arbiter::OLD_PLACES;
}
