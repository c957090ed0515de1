// A table as bytes in a lent buffer (clause 3.5).
ghost use Rattle.std.specs.Prelude.{◌≡◌};
ghost use Rattle.terms.specs.Limits.{max_places};
ghost use Rattle.arbiter.specs.ByValue.{given};
ghost use Rattle.table_bytes.specs.Writing.{write_table, write_answer_of};

use arbiter::table::{Table, lay_table};
use layout::lent::Words;
use queries::write::admit_and_write;
use terms::refusals::Cause;

// The table's bytes from the buffer's start on; the bytes beyond are left as they were, and so are all of them if it is refused. Refused:
// 1 to 7, 17, 14 (clause 13.4).
#[tactic(auto, using(arbiter::proofs::ByValue::right_full, arbiter::proofs::ByValue::room_full))]
pub fn write_table(t: Table, buffer: &mut [u8]) -> Result<usize, Cause>
    ensures { record { answer = write_answer_of result; buffer = buffer.new } ≡ write_table max_places (given t) buffer.old }
{
    admit_and_write(&Words::of(&lay_table(t)), buffer)
}
