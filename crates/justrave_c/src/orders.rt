// The exported call that puts a table in order: justrave::orders, for C.
ghost use Rattle.std.specs.Prelude.{◌≡◌};
ghost use Rattle.terms.specs.Limits.{max_places};
ghost use Rattle.justrave.specs.Exported.{ordered};

use justrave::orders;

// Clauses 8.3 and 13.6.
#[unsafe(no_mangle)]
pub extern "C" fn justrave_order(table: &[u8], buffer: &mut [u8], answer: &mut [u64]) -> u64
    ensures { record { buffer = buffer.new; answer = answer.new; outcome = result } ≡ ordered max_places table.now buffer.old answer.old }
{
    orders::justrave_order(table, buffer, answer)
}
