// Tables and states that the cases are about.
ghost use Rattle.std.specs.Prelude.{◌≡◌, [], ◌∷◌};
ghost use Rattle.terms.specs.Limits.{max_places};
ghost use Rattle.terms.specs.Table.{table_of};
ghost use Rattle.terms.specs.Start.{no_state};
ghost use Rattle.layout.specs.Words.{with_account, with_slot, with_table};
ghost use Rattle.arbiter.specs.ByValue.{given, held};

use arbiter::state::Arbiter;
use arbiter::table::{Table, lay_table};
use layout::words::{put_account, put_slot_number};
use terms::place::{Account, Requestor};
use terms::units::{Slots, Transfers};

// A rate n, a burst b, and the need of one transfer within l slots.
pub fn row(n: u64, b: u64, l: u64) -> Requestor
    ensures { result ≡ record { rate = n; burst = b; need = record { 0 = 1 }; within = record { 0 = l } } }
{
    Requestor {
        rate: n,
        burst: b,
        need: Transfers(1),
        within: Slots(l),
    }
}

// A row with this many transfers in its need.
pub fn needing(j: u64, r: Requestor) -> Requestor
    ensures { result ≡ record { rate = r.rate; burst = r.burst; need = record { 0 = j }; within = r.within } }
{
    Requestor {
        need: Transfers(j),
        ..r
    }
}

// A table of D and N whose rows are all 0.
#[tactic(auto, unfolding(terms::specs::Table::table_of, lists::specs::Overwriting::written_over))]
fn bare_table(d: u64, n: usize) -> Table
    ensures { given result ≡ table_of max_places d n [] }
{
    Table {
        denominator: d,
        count: n,
        requestors: [Requestor::NONE; Arbiter::MAX_PLACES],
    }
}

#[tactic(auto, unfolding(terms::specs::Table::table_of, lists::specs::Overwriting::written_over))]
pub fn one_place(d: u64, r: Requestor) -> Table
    ensures { given result ≡ table_of max_places d 1 (r ∷ []) }
{
    let mut t = bare_table(d, 1);
    t.requestors[0] = r;
    t
}

#[tactic(auto, unfolding(terms::specs::Table::table_of, lists::specs::Overwriting::written_over))]
pub fn two_places(d: u64, first: Requestor, second: Requestor) -> Table
    ensures { given result ≡ table_of max_places d 2 (first ∷ second ∷ []) }
{
    let mut t = bare_table(d, 2);
    t.requestors[0] = first;
    t.requestors[1] = second;
    t
}

// Table T of clause 16.1.
pub fn t() -> Table
    ensures { given result ≡ table_of max_places 4 2 (record { rate = 1; burst = 8; need = record { 0 = 1 }; within = record { 0 = 4 } } ∷ record { rate = 1; burst = 4; need = record { 0 = 1 }; within = record { 0 = 7 } } ∷ []) }
{
    two_places(4, row(1, 8, 4), row(1, 4, 7))
}

pub fn account(credit: u64, backlog: u64) -> Account
    ensures { result ≡ record { credit = credit; backlog = record { 0 = backlog } } }
{
    Account {
        credit,
        backlog: Transfers(backlog),
    }
}

// Table T with these accounts at its two places. No start has made it, and it may break a rule.
#[tactic(auto, using(layout::proofs::Stores::put_account_lem, layout::proofs::Stores::put_length, layout::proofs::Stores::put_slot, layout::proofs::Stores::put_slot_length, arbiter::proofs::ByValue::room_full))]
pub fn t_with(first: Account, second: Account, slot: u64) -> Arbiter
    ensures { held result ≡ with_account (with_account (with_slot (with_table (no_state max_places) (table_of max_places 4 2 (record { rate = 1; burst = 8; need = record { 0 = 1 }; within = record { 0 = 4 } } ∷ record { rate = 1; burst = 4; need = record { 0 = 1 }; within = record { 0 = 7 } } ∷ []))) slot) 0 first) 1 second }
{
    let mut words = lay_table(t());
    put_slot_number(&mut words, Slots(slot));
    put_account(&mut words, 0, first);
    put_account(&mut words, 1, second);
    Arbiter { words }
}
