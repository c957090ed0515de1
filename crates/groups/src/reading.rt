// A number is read from the start of some bytes, and the rest of them is handed on to the next reading.
ghost use Rattle.std.specs.Prelude.{◌≡◌, ◌≤◌, ◌+◌, ◌-◌, ◌*◌, leb};
ghost use Rattle.lists.specs.Choices.{pick};
ghost use Rattle.groups.specs.Groups.{max_number, later_groups, number_of, handed_on, number_answer};

use terms::refusals::InputRefusal;

// How many groups may follow the first.
const MAX_LATER: usize = 4;

// The largest number that can have a group below it: the largest number of all, without its lowest group.
const MAX_HIGH: u32 = 4294967295 / 128;

// The number that a byte with its top bit set makes, with the number of the groups after it.
fn combine(x: u8, high: u32) -> Result<u32, InputRefusal>
    requires { 128 ≤ x }
    ensures { let y = x - 128 + 128 * high in result ≡ pick (leb y max_number) (Ok y) (Err InputRefusal.NumberForm) }
{
    if MAX_HIGH < high {
        return Err(InputRefusal::NumberForm);
    }
    Ok(x as u32 - 128 + 128 * high)
}

// What stands after a byte with its top bit set, where at most `left` groups may follow it. The last of them is not 0: else a shorter form
// says the same.
#[tactic(auto, using(crate::proofs::Readings::later_steps))]
fn later_groups(bytes: &[u8], left: usize) -> Result<(u32, &[u8]), InputRefusal>
    ensures { handed_on result ≡ number_answer bytes.now (later_groups left bytes.now) }
{
    if left == 0 {
        return Err(InputRefusal::NumberForm);
    }
    match bytes {
        [] => Err(InputRefusal::BytesEnd),
        [0, ..] => Err(InputRefusal::NumberForm),
        [x, rest @ ..] if *x < 128 => Ok((*x as u32, rest)),
        [x, rest @ ..] => {
            let (high, rest) = later_groups(rest, left - 1)?;
            Ok((combine(*x, high)?, rest))
        }
    }
}

// The number at the start of the bytes. Refused: 8, 9.
#[tactic(auto, using(crate::proofs::Readings::number_steps))]
pub fn read_number(bytes: &[u8]) -> Result<(u32, &[u8]), InputRefusal>
    ensures { handed_on result ≡ number_answer bytes.now (number_of bytes.now) }
{
    match bytes {
        [] => Err(InputRefusal::BytesEnd),
        [x, rest @ ..] if *x < 128 => Ok((*x as u32, rest)),
        [x, rest @ ..] => {
            let (high, rest) = later_groups(rest, MAX_LATER)?;
            Ok((combine(*x, high)?, rest))
        }
    }
}
