// An outcome as one number: of a refusal, of a call that has nothing to tell, and of a wrong length.
ghost use Rattle.std.specs.Prelude.{◌≡◌, Err};
ghost use Rattle.terms.specs.declared.refusals.Cause.{Cause};
ghost use Rattle.terms.specs.Limits.{max_places};
ghost use Rattle.terms.specs.Refusals.{refusal_of};
ghost use Rattle.terms.specs.Answers.{answer_of};
ghost use Rattle.outcomes.specs.Outcomes.{place_code, refusal_code, answer_code};
ghost use Rattle.outcomes.specs.Places.{Below};

use terms::refusals::Cause;

// A lent length is wrong (clause 12.255). No other refusal has this number.
pub const WRONG_LENGTH: u64 = 255;

// A place as place + 1, so that 0 is none.
pub fn place_code(place: Option<usize>) -> u64
    requires { Below max_places place }
    ensures { result ≡ place_code place }
{
    place.map_or(0, |p| p as u64 + 1)
}

// A refusal: its number in the low 8 bits, and above them the place it names + 1 (clause 15.4).
#[tactic(auto, unfolding(crate::specs::Outcomes::refusal_code))]
pub fn refusal_code(c: Cause) -> u64
    requires { Below max_places (refusal_of c).place }
    ensures { result ≡ refusal_code (refusal_of c) }
{
    let r = c.refusal();
    r.number as u64 + 256 * place_code(r.place)
}

// A call that has nothing to tell but that it was carried out: 0 is accepted (clause 15.4).
pub fn outcome_code(answer: Result<(), Cause>) -> u64
    requires { (c : Cause) → answer ≡ Err c → Below max_places (refusal_of c).place }
    ensures { result ≡ answer_code (answer_of answer) }
{
    match answer {
        Ok(()) => 0,
        Err(c) => refusal_code(c),
    }
}
