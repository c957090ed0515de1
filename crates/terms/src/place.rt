// What stands at a place: its row of the table, and its account.
ghost use Rattle.std.specs.Prelude.{◌≡◌};
ghost use Rattle.terms.specs.Table.{no_requestor, requestor_clear};

use crate::units::{Slots, Transfers};

// One row of the table: the rate n, the burst b, and the need of j transfers within L slots.
#[derive(Clone, Copy, PartialEq)]
pub struct Requestor {
    pub rate: u64,
    pub burst: u64,
    pub need: Transfers,
    pub within: Slots,
}

// What a slot changes of one place: its credit c and its backlog q.
#[derive(Clone, Copy)]
pub struct Account {
    pub credit: u64,
    pub backlog: Transfers,
}

impl Requestor {
    // A row past place N-1: every field is 0.
    pub const NONE: Requestor = Requestor {
        rate: 0,
        burst: 0,
        need: Transfers(0),
        within: Slots(0),
    };

    // Whether it is such a row.
    pub fn is_none(self) -> bool
        ensures { result ≡ requestor_clear self }
    {
        self == Requestor::NONE
    }
}
