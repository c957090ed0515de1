// Why a call was refused: by its input or by the state it was handed, and inside what was wrong. Numbers are given here and nowhere else:
// those of the input by a function, as an enum whose cases hold a place has none of its own.
ghost use Rattle.std.specs.Prelude.{◌≡◌};
ghost use Rattle.terms.specs.Refusals.{input_number, input_place, state_number, refusal_of, verdict_of, then};
ghost use Rattle.terms.specs.declared.refusals.Cause.TheVariants as cause;

// Clauses 12.1 to 12.17. Those that name a place hold it.
#[derive(Clone, Copy)]
pub enum InputRefusal {
    Denominator,
    Count,
    Rate(usize),
    Burst(usize),
    Need(usize),
    RateSum,
    Finish(usize),
    BytesEnd,
    NumberForm,
    BytesLeft,
    NoSuchPlace,
    FirstSlot,
    TooLong,
    BufferShort,
    NoOrder,
    Circle(usize),
    NeedAboveBurst(usize),
}

// Clauses 12.21 to 12.23, under their numbers.
#[derive(Clone, Copy)]
pub enum StateRefusal {
    BacklogLimit = 21,
    SlotLimit = 22,
    Unsound = 23,
}

// Why a call was refused, as its answer holds it: one of the input refusals, or one of the state refusals.
#[derive(Clone, Copy)]
pub enum Cause {
    Input(InputRefusal),
    State(StateRefusal),
}

// What caused a refusal (clause 1.5).
#[derive(Clone, Copy)]
pub enum Origin {
    Input,
    State,
}

// A refusal: its number, the place it names if it names one, and what caused it.
#[derive(Clone, Copy)]
pub struct Refusal {
    pub number: u32,
    pub place: Option<usize>,
    pub origin: Origin,
}

fn input_number(i: InputRefusal) -> u32
    ensures { result ≡ input_number i }
{
    match i {
        InputRefusal::Denominator => 1,
        InputRefusal::Count => 2,
        InputRefusal::Rate(_) => 3,
        InputRefusal::Burst(_) => 4,
        InputRefusal::Need(_) => 5,
        InputRefusal::RateSum => 6,
        InputRefusal::Finish(_) => 7,
        InputRefusal::BytesEnd => 8,
        InputRefusal::NumberForm => 9,
        InputRefusal::BytesLeft => 10,
        InputRefusal::NoSuchPlace => 11,
        InputRefusal::FirstSlot => 12,
        InputRefusal::TooLong => 13,
        InputRefusal::BufferShort => 14,
        InputRefusal::NoOrder => 15,
        InputRefusal::Circle(_) => 16,
        InputRefusal::NeedAboveBurst(_) => 17,
    }
}

// Which cases hold a place only a `match` can say.
fn input_place(i: InputRefusal) -> Option<usize>
    ensures { result ≡ input_place i }
{
    match i {
        InputRefusal::Rate(p)
        | InputRefusal::Burst(p)
        | InputRefusal::Need(p)
        | InputRefusal::Finish(p)
        | InputRefusal::Circle(p)
        | InputRefusal::NeedAboveBurst(p) => Some(p),
        _ => None,
    }
}

fn state_number(s: StateRefusal) -> u32
    ensures { result ≡ state_number s }
{
    s as u32
}

// The first fault of two checks that were both made. Checks that are made one behind the other hand theirs on by `?`.
#[tactic(auto, unfolding(crate::specs::Refusals::then))]
pub fn first_fault(a: Result<(), Cause>, b: Result<(), Cause>) -> Result<(), Cause>
    ensures { verdict_of result ≡ then (verdict_of a) (verdict_of b) }
{
    match a {
        Ok(()) => b,
        Err(_) => a,
    }
}

impl From<InputRefusal> for Cause {
    ghost from_gives = { λ i c. c ≡ cause.Input i };

    fn from(i: InputRefusal) -> Cause {
        Cause::Input(i)
    }
}

impl From<StateRefusal> for Cause {
    ghost from_gives = { λ s c. c ≡ cause.State s };

    fn from(s: StateRefusal) -> Cause {
        Cause::State(s)
    }
}

impl Cause {
    // Its number, the place it names, and what caused it: a method under the name by which the promises know it (terms::refusal).
    pub fn refusal(self) -> Refusal
        ensures { result ≡ refusal_of self }
    {
        match self {
            Cause::Input(i) => Refusal {
                number: input_number(i),
                place: input_place(i),
                origin: Origin::Input,
            },
            Cause::State(s) => Refusal {
                number: state_number(s),
                place: None,
                origin: Origin::State,
            },
        }
    }
}
