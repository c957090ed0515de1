// A table from its bytes (clause 3.3). It is read into words, as a start at slot 0 reads it, and handed back from them: there is no second
// walk over the rows' bytes, and a table that was read passes the start's own checks.
ghost use Rattle.std.specs.Prelude.{◌≡◌};
ghost use Rattle.terms.specs.Limits.{max_places};
ghost use Rattle.table_bytes.specs.Reading.{read_table};
ghost use Rattle.calls.specs.ByValue.{read_result_of};

use arbiter::state::Arbiter;
use arbiter::table::{Table, table_of};
use starts::bytes::start_bytes;
use terms::answers::Outcome;
use terms::units::Slots;

// A refused reading hands back a table whose every field is 0 (clause 1.6). Refused: 1 to 5, 8 and 9 as the numbers are read, 17 behind
// each place, then 10, 6, 7 (clause 13.2).
#[tactic(auto, using(arbiter::proofs::ByValue::right_full, arbiter::proofs::ByValue::room_full, starts::proofs::Begun::read_of_start))]
pub fn read_table(bytes: &[u8]) -> Outcome<Table, ()>
    ensures { read_result_of result ≡ read_table max_places bytes.now }
{
    let mut words = [0u64; Arbiter::WORDS];
    let answer = start_bytes(bytes, Slots(0), &mut words);
    Outcome {
        after: table_of(Arbiter { words }),
        answer,
    }
}
