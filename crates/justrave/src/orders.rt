// The exported call that puts a table's requestors in an order that passes admission. No state is lent to it. The refusal is a number for
// C, so that the `match` ends here.
ghost use Rattle.std.specs.Prelude.{◌≡◌};
ghost use Rattle.terms.specs.Limits.{max_places};
ghost use Rattle.justrave.specs.Exported.{ordered};

use ordered_bytes::order_bytes;
use outcomes::codes::{WRONG_LENGTH, refusal_code};

// The bytes of the table in order into the buffer; the answer is how many (clause 8.3). Refused: 255; 8, 9 and 1 to 5 number by number, 17
// behind each place; 10, 6, 15, 14 (clause 13.6).
#[tactic(auto, using(crate::proofs::Queries::order_below, crate::proofs::Queries::one_put), unfolding(crate::specs::Exported::ordered))]
pub fn justrave_order(table: &[u8], buffer: &mut [u8], answer: &mut [u64]) -> u64
    ensures { record { buffer = buffer.new; answer = answer.new; outcome = result } ≡ ordered max_places table.now buffer.old answer.old }
{
    if answer.len() != 1 {
        return WRONG_LENGTH;
    }
    match order_bytes(table, buffer) {
        Ok(bytes) => {
            answer[0] = bytes as u64;
            0
        }
        Err(c) => refusal_code(c),
    }
}
