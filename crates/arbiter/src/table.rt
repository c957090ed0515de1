// The requestor table as numbers, by value: how it is laid into words, and how it is handed back from them. `lay_table` takes a table by
// value; layout::laying says why it is a function of its own.
ghost use Rattle.std.specs.Prelude.{◌≡◌};
ghost use Rattle.terms.specs.Limits.{max_places};
ghost use Rattle.terms.specs.Start.{no_state};
ghost use Rattle.layout.specs.Words.{state_of, with_table};
ghost use Rattle.arbiter.specs.ByValue.{held, given};

use crate::state::Arbiter;
use layout::words::{count, denominator, put_head, put_row, requestor};
use terms::place::Requestor;

// D, N and the rows. Those past place N-1 must be 0 (clause 2.6).
#[derive(Clone, Copy)]
pub struct Table {
    pub denominator: u64,
    pub count: usize,
    pub requestors: [Requestor; Arbiter::MAX_PLACES],
}

// The words of the state that has this table and is 0 beside it. N is laid as it is: check 2 comes later.
pub fn lay_table(t: Table) -> [u64; Arbiter::WORDS]
    ensures { state_of result ≡ with_table (no_state max_places) (given t) }
{
    let mut words = [0u64; Arbiter::WORDS];
    put_head(&mut words, t.denominator, t.count);
    for (p, r) in t.requestors.iter().enumerate() {
        put_row(&mut words, p, *r);
    }
    words
}

// The table of a state.
pub fn table_of(s: Arbiter) -> Table
    ensures { given result ≡ (held s).table }
{
    let mut rows = [Requestor::NONE; Arbiter::MAX_PLACES];
    for p in 0..Arbiter::MAX_PLACES {
        rows[p] = requestor(&s.words, p);
    }
    Table {
        denominator: denominator(&s.words),
        count: count(&s.words),
        requestors: rows,
    }
}
