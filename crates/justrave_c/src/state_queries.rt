// The exported calls that ask about a state and leave it as it is: justrave::state_queries, for C.
ghost use Rattle.std.specs.Prelude.{◌≡◌};
ghost use Rattle.terms.specs.Limits.{max_places};
ghost use Rattle.justrave.specs.Exported.{figured, chained, led, wrote, account_exported, standing_exported};

use justrave::state_queries;

// Clauses 7.4 and 13.11.
#[unsafe(no_mangle)]
pub extern "C" fn justrave_figures(state: &[u64], place: usize, j: u64, answer: &mut [u64]) -> u64
    ensures { record { answer = answer.new; outcome = result } ≡ figured max_places state.now place j answer.old }
{
    state_queries::justrave_figures(state, place, j, answer)
}

// Clauses 9.2 and 13.12.
#[unsafe(no_mangle)]
pub extern "C" fn justrave_chain(
    state: &[u64],
    place: usize,
    names: &[u8],
    answer: &mut [u64],
) -> u64
    ensures { record { answer = answer.new; outcome = result } ≡ chained max_places state.now place names.now answer.old }
{
    state_queries::justrave_chain(state, place, names, answer)
}

// Clauses 6.3 and 13.10.
#[unsafe(no_mangle)]
pub extern "C" fn justrave_lead(state: &[u64], place: usize, log: &[u8], answer: &mut [i64]) -> u64
    ensures { record { answer = answer.new; outcome = result } ≡ led max_places state.now place log.now answer.old }
{
    state_queries::justrave_lead(state, place, log, answer)
}

// Clauses 3.5 and 13.4.
#[unsafe(no_mangle)]
pub extern "C" fn justrave_write(state: &[u64], buffer: &mut [u8], answer: &mut [u64]) -> u64
    ensures { record { buffer = buffer.new; answer = answer.new; outcome = result } ≡ wrote max_places state.now buffer.old answer.old }
{
    state_queries::justrave_write(state, buffer, answer)
}

// Clauses 11.3 and 13.13.
#[unsafe(no_mangle)]
pub extern "C" fn justrave_account(state: &[u64], place: usize, answer: &mut [u64]) -> u64
    ensures { record { answer = answer.new; outcome = result } ≡ account_exported max_places state.now place answer.old }
{
    state_queries::justrave_account(state, place, answer)
}

// Clauses 11.3 and 13.13.
#[unsafe(no_mangle)]
pub extern "C" fn justrave_standing(state: &[u64], answer: &mut [u64]) -> u64
    ensures { record { answer = answer.new; outcome = result } ≡ standing_exported max_places state.now answer.old }
{
    state_queries::justrave_standing(state, answer)
}
