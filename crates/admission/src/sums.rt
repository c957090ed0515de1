// The sums above a place, each by a loop over the places above it. That they fit is asked of the caller, who knows what the numbers are
// held to. There are two loops: one with a closure for the field would be no shorter, as its contract would say which field that is.
ghost use Rattle.std.specs.Prelude.{◌≡◌, ◌≤◌, ◌<◌, ◌^◌, length};
ghost use Rattle.terms.specs.Figures.{bursts_above, rates_above};
ghost use Rattle.layout.specs.Words.{word_count};
ghost use Rattle.admission.specs.Checked.{rows_in};

use layout::words::{burst, rate};

// The sum of the bursts above p: B of clause 7.1.
#[tactic(auto, unfolding(lists::specs::Sums::total))]
pub fn bursts_above(words: &[u64], p: usize) -> u64
    requires { (word_count p ≤ length words.now) × (bursts_above p (rows_in words.now) < 2 ^ 64) }
    ensures { result ≡ bursts_above p (rows_in words.now) }
{
    let mut bursts = 0;
    for q in 0..p {
        bursts += burst(words, q);
    }
    bursts
}

// The sum of the rates above p; R of clause 7.1 is D less this.
#[tactic(auto, unfolding(lists::specs::Sums::total))]
pub fn rates_above(words: &[u64], p: usize) -> u64
    requires { (word_count p ≤ length words.now) × (rates_above p (rows_in words.now) < 2 ^ 64) }
    ensures { result ≡ rates_above p (rows_in words.now) }
{
    let mut rates = 0;
    for q in 0..p {
        rates += rate(words, q);
    }
    rates
}

#[derive(Clone, Copy)]
pub struct Sums {
    pub bursts: u64,
    pub rates: u64,
}

// Both sums above p, for the search for an order of places.
pub fn sums_above(words: &[u64], p: usize) -> Sums
    requires { (word_count p ≤ length words.now) × (bursts_above p (rows_in words.now) < 2 ^ 64) × (rates_above p (rows_in words.now) < 2 ^ 64) }
    ensures { result ≡ record { bursts = bursts_above p (rows_in words.now); rates = rates_above p (rows_in words.now) } }
{
    Sums {
        bursts: bursts_above(words, p),
        rates: rates_above(words, p),
    }
}
