// The beginning of the input (clause 14.1): its length, the table's length, the table, and a start at slot 0.
ghost use Rattle.std.specs.Prelude.{◌≡◌, List, ℕ};
ghost use Rattle.terms.specs.Limits.{max_places};
ghost use Rattle.table_bytes.specs.Reading.{read_table};
ghost use Rattle.reads.specs.Reads.{start_read, begun};
ghost use Rattle.reads.specs.Parts.{begun_of, begun_with};

use arbiter::input::check_input;
use arbiter::state::Arbiter;
use groups::reading::read_number;
use starts::bytes::start_bytes;
use terms::refusals::{Cause, InputRefusal};
use terms::units::Slots;

// The table of these bytes starts at slot 0.
fn start_at_0(table: &[u8]) -> Result<Arbiter, Cause>
    ensures { (rest : List ℕ) → begun_with rest result ≡ start_read max_places (read_table max_places table.now) rest }
{
    let mut state = Arbiter::none();
    start_bytes(table, Slots(0), &mut state.words)?;
    Ok(state)
}

// The state that the table starts, and the bytes behind the table. Ahead of all else comes 13 (clause 13.15).
#[tactic(auto, using(crate::proofs::Beginnings::input_refused))]
pub fn begin(input: &[u8]) -> Result<(Arbiter, &[u8]), Cause>
    ensures { begun_of result ≡ begun max_places input.now }
{
    check_input(input.len())?;
    let (size, rest) = read_number(input)?;
    let size = size as usize;
    if rest.len() < size {
        return Err(InputRefusal::BytesEnd.into());
    }
    let state = start_at_0(&rest[..size])?;
    Ok((state, &rest[size..]))
}
