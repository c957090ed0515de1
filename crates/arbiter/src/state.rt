// The arbiter's state, its limits, and start.
ghost use Rattle.std.specs.Prelude.{◌≡◌};
ghost use Rattle.terms.specs.Limits.{max_denominator, max_places, old_places, max_burst, max_need, max_within, max_backlog, max_slot, max_input};
ghost use Rattle.terms.specs.Start.{no_state, start};
ghost use Rattle.layout.specs.Words.{word_count};
ghost use Rattle.arbiter.specs.ByValue.{held, given, result_of};

use crate::start::start_laid;
use crate::table::{Table, lay_table};
use layout::words::{HEAD, PLACE};
use terms::answers::Outcome;
use terms::units::Slots;

// The state, with room for the largest N. Where each field stands in the words: layout::words.
#[derive(Clone, Copy)]
pub struct Arbiter {
    pub words: [u64; Arbiter::WORDS],
}

impl Arbiter {
    pub const MAX_DENOMINATOR: u64 = 65535;

    pub const MAX_PLACES: usize = 64;
    // The largest N before request 5. States that were made under it are carried over (clause 11.4).
    pub const OLD_PLACES: usize = 16;

    pub const MAX_BURST: u64 = 16777216;

    pub const MAX_NEED: u64 = 255;

    pub const MAX_WITHIN: u64 = 1073741824;

    pub const MAX_BACKLOG: u64 = 65535;

    pub const MAX_SLOT: u64 = 4611686018427387904;
    // The bytes of a log or of slotlist's input.
    pub const MAX_INPUT: usize = 65536;
    // The words of a state with room for the largest N.
    pub const WORDS: usize = HEAD + PLACE * Arbiter::MAX_PLACES;

    // The limits' names in specs/ (clause 2.1) stand for these constants. It does nothing.
    pub fn limits()
        ensures denominator { Arbiter.MAX_DENOMINATOR ≡ max_denominator }
        ensures places { Arbiter.MAX_PLACES ≡ max_places }
        ensures old_places { Arbiter.OLD_PLACES ≡ old_places }
        ensures burst { Arbiter.MAX_BURST ≡ max_burst }
        ensures need { Arbiter.MAX_NEED ≡ max_need }
        ensures within { Arbiter.MAX_WITHIN ≡ max_within }
        ensures backlog { Arbiter.MAX_BACKLOG ≡ max_backlog }
        ensures slot { Arbiter.MAX_SLOT ≡ max_slot }
        ensures input { Arbiter.MAX_INPUT ≡ max_input }
        ensures words { Arbiter.WORDS ≡ word_count max_places }
    {}

    // The state whose every field is 0.
    pub fn none() -> Arbiter
        ensures { held result ≡ no_state max_places }
    {
        Arbiter {
            words: [0u64; Arbiter::WORDS],
        }
    }

    // The state of a table and a first slot number that pass every check; else one whose every field is 0. Refused: 1 to 7, 17, 12.
    pub fn start(t: Table, first: Slots) -> Outcome<Arbiter, ()>
        ensures { result_of result ≡ start max_places (given t) first.0 }
    {
        let mut words = lay_table(t);
        let answer = start_laid(&mut words, first);
        Outcome {
            after: Arbiter { words },
            answer,
        }
    }
}
