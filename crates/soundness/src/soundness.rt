// Test 23 (clause 11.1): one walk over the table's places, and then every word past them.
ghost use Rattle.std.specs.Prelude.{◌≡◌, ◌&&◌, ◌≤◌};
ghost use Rattle.terms.specs.Limits.{max_denominator};
ghost use Rattle.terms.specs.Table.{state_row_verdict};
ghost use Rattle.terms.specs.State.{backlog_fits, is_faultless, sound};
ghost use Rattle.layout.specs.Words.{room_of_words, state_of};
ghost use Rattle.soundness.specs.Soundness.{places_hold};

use arbiter::bounds::denominator_bounds;
use arbiter::rows::check_fields;
use arbiter::state::Arbiter;
use layout::lent::Words;
use layout::words::{account, count, denominator, is_clear_from, requestor, room_of, slot_number};
use terms::place::{Account, Requestor};

// Its checks, and its backlog's limit.
fn place_holds(d: u64, p: usize, r: Requestor, a: Account) -> bool
    ensures { result ≡ (is_faultless (state_row_verdict d p r) && backlog_fits a) }
{
    check_fields(d, p, r).is_ok() && a.backlog.0 <= Arbiter::MAX_BACKLOG
}

// The rows and the accounts of the first n places. A credit can be any word, so credits are never added up: `room` is the bursts so far
// less the credits so far.
fn places_hold(words: &Words, d: u64, n: usize) -> bool
    requires { (n ≤ room_of_words words.now) × (d ≤ max_denominator) }
    ensures { result ≡ places_hold d n (state_of words.now).table.requestors (state_of words.now).accounts }
{
    let words = words.slice();
    let mut rates: u64 = 0;
    let mut room: u64 = 0;
    for p in 0..n {
        let r = requestor(words, p);
        let a = account(words, p);
        if !place_holds(d, p, r, a) {
            return false;
        }
        rates += r.rate;
        room += r.burst;
        if room < a.credit {
            return false;
        }
        room -= a.credit;
    }
    rates <= d
}

#[tactic(auto, using(admission::proofs::Rows::head_there, layout::proofs::RoundTrip::right, crate::proofs::Tests::words_sound))]
pub fn is_sound(words: &Words) -> bool
    ensures { result ≡ sound (room_of_words words.now) (state_of words.now) }
{
    let slice = words.slice();
    let d = denominator(slice);
    let n = count(slice);
    denominator_bounds().admits(d)
        && 1 <= n
        && n <= room_of(slice)
        && slot_number(slice).0 <= Arbiter::MAX_SLOT
        && places_hold(words, d, n)
        && is_clear_from(slice, n)
}
