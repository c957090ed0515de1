// A state from before request 5, carried over (clause 11.4): the same table, slot number and accounts, with room for the largest N.
ghost use Rattle.std.specs.Prelude.{◌≡◌};
ghost use Rattle.terms.specs.Limits.{max_places, old_places};
ghost use Rattle.carrying.specs.Carry.{carry};
ghost use Rattle.arbiter.specs.ByValue.{result_of};
ghost use Rattle.carrying.specs.OldWords.{old_held};

use arbiter::old::OldArbiter;
use arbiter::state::Arbiter;
use carrying::carry::carry_words;
use terms::answers::Outcome;

// Refused, the state handed back is all 0: 23, by the old limit (clause 13.14).
pub fn carry(old: OldArbiter) -> Outcome<Arbiter, ()>
    ensures { result_of result ≡ carry old_places max_places (old_held old) }
{
    let mut words = [0u64; Arbiter::WORDS];
    let answer = carry_words(&old.words, &mut words);
    Outcome {
        after: Arbiter { words },
        answer,
    }
}
