// The rule of a slot at one place: whether it is eligible, and what becomes of its account if it is granted and if it is not. That credit
// and rate add up within 64 bits is asked at each function, and is in no type: words that are lent can hold any number, so the walk shows
// it anew at each place.
ghost use Rattle.std.specs.Prelude.{◌≡◌, true, ◌+◌, ◌<◌, ◌^◌};
ghost use Rattle.rule.specs.Rule.{eligible, served, passed};

use terms::place::{Account, Requestor};
use terms::units::Transfers;

// Something waits, and with this slot's share the credit pays for one transfer (clause 5.2).
#[tactic(auto, unfolding(crate::specs::Rule::eligible))]
pub fn is_eligible(d: u64, r: Requestor, a: Account) -> bool
    requires { a.credit + r.rate < 2 ^ 64 }
    ensures { result ≡ eligible d r a }
{
    0 < a.backlog.0 && d <= a.credit + r.rate
}

// The account of the granted place (clause 5.3).
#[tactic(auto, using(crate::proofs::Accounts::eligible_true))]
pub fn serve(d: u64, r: Requestor, a: Account) -> Account
    requires { (a.credit + r.rate < 2 ^ 64) × (eligible d r a ≡ true) }
    ensures { result ≡ served d r a }
{
    Account {
        credit: a.credit + r.rate - d,
        backlog: Transfers(a.backlog.0 - 1),
    }
}

// The account of any other place (clauses 5.4 and 5.5).
#[tactic(auto, unfolding(crate::specs::Rule::passed))]
pub fn pass(r: Requestor, a: Account) -> Account
    requires { a.credit + r.rate < 2 ^ 64 }
    ensures { result ≡ passed r a }
{
    let raised = a.credit + r.rate;
    let credit = if a.backlog.0 == 0 {
        raised.min(r.burst)
    } else {
        raised
    };
    Account { credit, ..a }
}
