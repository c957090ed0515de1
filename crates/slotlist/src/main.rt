// The program slotlist (section 14): it reads its input, takes step after step of the listing, and writes their texts. A read or a write
// that fails ends it with that error.
#![tactic(auto)]

ghost use Rattle.std.specs.Prelude.{◌≤◌, length, IfOk};
ghost use Rattle.terms.specs.Limits.{max_places};
ghost use Rattle.listing.specs.Room.{line_room};

use arbiter::state::Arbiter;
use listing::steps::{Output, first_step, step};
use std::io;
use std::io::{ErrorKind, Read, Write};

// One byte more than the largest input, so that an input that is too long is seen (clause 12.13).
const INPUT_ROOM: usize = Arbiter::MAX_INPUT + 1;

// The texts that gather before they are written.
const PAGE: usize = 65536;

// Bytes from a reader until it ends or the room is full. A read gives as many as it likes, so that no `for` counts them.
fn read_input<'a, R: Read>(input: &mut R, room: &'a mut [u8]) -> io::Result<&'a [u8]>
    ensures { IfOk result (λ bytes. length bytes.now ≤ length room.old) }
{
    let mut at = 0;
    while at < room.len() {
        let more = input.read(&mut room[at..])?;
        if more == 0 {
            break;
        }
        at += more;
    }
    Ok(&room[..at])
}

// The slots from the rest of the input: their texts gather on the page, which is written when it has no room for another. A step that
// goes on takes a byte at least, and an empty page has room, so the loop ends. The page and how much of it is used stay apart: no heap.
fn print_slots<W: Write>(
    mut state: Arbiter,
    mut rest: &[u8],
    page: &mut [u8],
    mut used: usize,
    to: &mut W,
) -> io::Result<()>
    requires { (line_room max_places ≤ length page.old) × (used ≤ length page.old) }
{
    loop {
        let done = step(state, rest, &mut page[used..]);
        state = done.state;
        match done.output {
            Output::More(wrote, behind) => {
                used += wrote;
                rest = behind;
            }
            Output::Last(wrote) => {
                return to.write_all(&page[..used + wrote]);
            }
            Output::NoRoom => {
                to.write_all(&page[..used])?;
                used = 0;
            }
        }
    }
}

// Header and slots. The page has room for the header, so the last arm is never taken.
fn print_listing<W: Write>(input: &[u8], page: &mut [u8], to: &mut W) -> io::Result<()>
    requires { line_room max_places ≤ length page.old }
{
    let first = first_step(input, page);
    match first.output {
        Output::More(wrote, rest) => print_slots(first.state, rest, page, wrote, to),
        Output::Last(wrote) => to.write_all(&page[..wrote]),
        Output::NoRoom => Err(ErrorKind::WriteZero.into()),
    }
}

fn main(rt: HostRuntime) -> io::Result<()> {
    let mut room = [0u8; INPUT_ROOM];
    let mut page = [0u8; PAGE];
    let input = read_input(&mut rt.reader(), &mut room)?;
    print_listing(input, &mut page, &mut io::writer(&rt))
}
