// Slots count time and transfers count work; a count of one is never passed as the other.

#[derive(Clone, Copy, PartialEq)]
pub struct Slots(pub u64);

#[derive(Clone, Copy, PartialEq)]
pub struct Transfers(pub u64);
