// The exported calls that change a state, and the two that tell of its words: justrave::states, for C.
ghost use Rattle.std.specs.Prelude.{◌≡◌};
ghost use Rattle.terms.specs.Limits.{max_places};
ghost use Rattle.layout.specs.Words.{layout_version};
ghost use Rattle.justrave.specs.Exported.{size_of, posted, slotted, ran};

use justrave::states;

// Clause 15.6.
#[unsafe(no_mangle)]
pub extern "C" fn justrave_layout() -> u64
    ensures { result ≡ layout_version }
{
    states::justrave_layout()
}

// Clause 15.1.
#[unsafe(no_mangle)]
pub extern "C" fn justrave_state_words(places: usize) -> usize
    ensures { result ≡ size_of max_places places }
{
    states::justrave_state_words(places)
}

// Clauses 5.1 and 13.7.
#[unsafe(no_mangle)]
pub extern "C" fn justrave_post(state: &mut [u64], place: usize, count: u64) -> u64
    ensures { record { words = state.new; outcome = result } ≡ posted max_places state.old place count }
{
    states::justrave_post(state, place, count)
}

// Clauses 15.5 and 13.8.
#[unsafe(no_mangle)]
pub extern "C" fn justrave_slot(state: &mut [u64], answer: &mut [u64]) -> u64
    ensures { record { words = state.new; answer = answer.new; outcome = result } ≡ slotted max_places state.old answer.old }
{
    states::justrave_slot(state, answer)
}

// Clauses 6.1 and 13.9.
#[unsafe(no_mangle)]
pub extern "C" fn justrave_run(state: &mut [u64], log: &mut [u8]) -> u64
    ensures { record { words = state.new; log = log.new; outcome = result } ≡ ran max_places state.old log.old }
{
    states::justrave_run(state, log)
}
