// What each call answers. A call that was carried out answers `Ok`, with what was asked for; one that was not answers `Err`, with the cause.
use crate::refusals::Cause;
use crate::units::Slots;

// What a call by value hands back: what it works on, which is the state or a table, as it is after the call; and its answer.
#[derive(Clone, Copy)]
pub struct Outcome<S, T> {
    pub after: S,
    pub answer: Result<T, Cause>,
}

// A slot that was done: its stamp, and the place granted; none if it is idle.
#[derive(Clone, Copy)]
pub struct Slot {
    pub stamp: Slots,
    pub granted: Option<usize>,
}

// In slots: how many in a row can go to the places above at most, and within how many its transfers are all granted.
#[derive(Clone, Copy)]
pub struct PlaceFigures {
    pub wait: Slots,
    pub finish: Slots,
}

// The slot number, and N: the slot that comes next, and how many places there are to ask about.
#[derive(Clone, Copy)]
pub struct Standing {
    pub slot: Slots,
    pub count: usize,
}
