// The exported calls that make a state: justrave::starting, for C.
ghost use Rattle.std.specs.Prelude.{◌≡◌};
ghost use Rattle.terms.specs.Limits.{max_places, old_places};
ghost use Rattle.justrave.specs.Exported.{started, started_of, carried_over};

use justrave::starting;

// Clauses 4.2 and 13.3.
#[unsafe(no_mangle)]
pub extern "C" fn justrave_start(table: &[u8], first: u64, state: &mut [u64]) -> u64
    ensures { record { words = state.new; outcome = result } ≡ started max_places table.now first state.old }
{
    starting::justrave_start(table, first, state)
}

// Clause 13.3.
#[unsafe(no_mangle)]
pub extern "C" fn justrave_start_numbers(numbers: &[u32], first: u64, state: &mut [u64]) -> u64
    ensures { record { words = state.new; outcome = result } ≡ started_of max_places numbers.now first state.old }
{
    starting::justrave_start_numbers(numbers, first, state)
}

// Clauses 11.4 and 13.14.
#[unsafe(no_mangle)]
pub extern "C" fn justrave_carry(old: &[u64], state: &mut [u64]) -> u64
    ensures { record { words = state.new; outcome = result } ≡ carried_over old_places max_places old.now state.old }
{
    starting::justrave_carry(old, state)
}
