// One slot: the walk passes over each place that is not eligible, serves the first that is, and passes over the rest. The search is a loop
// that breaks with the place, or with none. D and N come beside the words that they are of: they are read once for a run.
ghost use Rattle.std.specs.Prelude.{◌≡◌};
ghost use Rattle.layout.specs.Words.{state_of};
ghost use Rattle.walk.specs.Walk.{Roomy, grant_among, slot_among};

use layout::words::{account, put_account, requestor};
use rule::rule::{is_eligible, pass, serve};

// The place that it grants, if it grants one; and every account of the first n places moves on.
#[tactic(auto, using(crate::proofs::Walked::steps))]
pub fn one_slot(words: &mut [u64], d: u64, n: usize) -> Option<usize>
    requires { Roomy words.old n }
    ensures grant { result ≡ grant_among d n (state_of words.old) }
    ensures state { state_of words.new ≡ slot_among d n result (state_of words.old) }
{
    let mut p = 0;
    let granted = loop {
        if n <= p {
            break None;
        }
        let r = requestor(words, p);
        let a = account(words, p);
        // By the test of `is_eligible` alone, with one `pass` behind it, idle slots took a quarter more time.
        if a.backlog.0 == 0 {
            put_account(words, p, pass(r, a));
        } else if is_eligible(d, r, a) {
            put_account(words, p, serve(d, r, a));
            break Some(p);
        } else {
            put_account(words, p, pass(r, a));
        }
        p += 1;
    };
    for q in p + 1..n {
        let r = requestor(words, q);
        let a = account(words, q);
        put_account(words, q, pass(r, a));
    }
    granted
}
