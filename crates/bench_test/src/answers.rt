// The calls by value. Of each the line tells first what it handed back, and then its answer.
use arbiter::old::OldArbiter;
use arbiter::state::Arbiter;
use arbiter::table::Table;
use bench_parts::printing::{accepted_or_refused, case, numbers, state, table, told_or_refused};
use calls::admit::admit_table;
use calls::carry::carry;
use calls::chain::chain;
use calls::figures::figures;
use calls::lead::lead;
use calls::look::{account, standing};
use calls::read::read_table;
use calls::run::run;
use calls::write::write_table;
use groups::reading::read_number;
use groups::writing::{number_len, write_number};
use in_place::slot_through_reference;
use ordering::order::order;
use replay::replay;
use std::io;
use terms::refusals::InputRefusal;
use terms::units::{Slots, Transfers};

// A refused reading hands back a table of zeros.
pub fn reads_table(rt: &impl Print, bytes: &[u8]) -> io::Result<()> {
    let done = read_table(bytes);
    table(rt, done.after)?;
    accepted_or_refused(rt, done.answer)
}

// The table in order; a refused one is of zeros.
pub fn orders(rt: &impl Print, t: Table) -> io::Result<()> {
    let done = order(t);
    table(rt, done.after)?;
    accepted_or_refused(rt, done.answer)
}

// The number and how many bytes it takes, or what is wrong.
pub fn reads_number(rt: &impl Print, bytes: &[u8]) -> io::Result<()> {
    match read_number(bytes) {
        Ok((x, rest)) => print!(rt; " {x} t {}", bytes.len() - rest.len()),
        Err(InputRefusal::BytesEnd) => print!(rt; " E"),
        Err(_) => print!(rt; " M"),
    }
}

// How many bytes the number takes and how many were written, which are 0 without room, and the whole buffer after it.
pub fn writes_number(rt: &impl Print, x: u32) -> io::Result<()> {
    let mut buffer = [170u8; 6];
    let wrote = write_number(x, &mut buffer);
    print!(rt; " {x} t {} b {}", number_len(x), wrote)?;
    numbers(rt, &buffer)
}

// The whole buffer after a writing, and how many bytes were written.
pub fn writes_table(rt: &impl Print, t: Table, buffer: &mut [u8]) -> io::Result<()> {
    let answer = write_table(t, buffer);
    numbers(rt, buffer)?;
    told_or_refused(rt, answer, |wrote| print!(rt; " b {wrote}"))
}

pub fn admits(rt: &impl Print, t: Table) -> io::Result<()> {
    accepted_or_refused(rt, admit_table(t))
}

// The thin form: the slot of a state that is lent.
pub fn lends(rt: &impl Print, s: Arbiter) -> io::Result<()> {
    let done = slot_through_reference(s);
    case(rt, 0)?;
    print!(rt; " L")?;
    state(rt, done.after)?;
    told_or_refused(rt, done.answer, |slot| match slot.granted {
        Some(place) => print!(rt; " g {place} @ {}", slot.stamp.0),
        None => print!(rt; " - @ {}", slot.stamp.0),
    })
}

pub fn runs(rt: &impl Print, s: Arbiter, log: &mut [u8]) -> io::Result<()> {
    let done = run(s, log);
    numbers(rt, log)?;
    state(rt, done.after)?;
    accepted_or_refused(rt, done.answer)
}

// A lead below 0 is told as minus its distance from 0.
pub fn leads(rt: &impl Print, s: Arbiter, place: usize, log: &[u8]) -> io::Result<()> {
    told_or_refused(rt, lead(s, place, log), |ahead| {
        if ahead < 0 {
            print!(rt; " m {}", ahead.unsigned_abs())
        } else {
            print!(rt; " {ahead}")
        }
    })
}

pub fn figures_of(rt: &impl Print, s: Arbiter, place: usize) -> io::Result<()> {
    told_or_refused(rt, figures(s, place, Transfers(1)), |figures| {
        print!(rt; " w {} f {}", figures.wait.0, figures.finish.0)
    })
}

pub fn chains(rt: &impl Print, s: Arbiter, place: usize, names: &[u8]) -> io::Result<()> {
    told_or_refused(
        rt,
        chain(s, place, names),
        |figure| print!(rt; " {}", figure.0),
    )
}

// What an old state is carried over to; a refused one is all 0.
pub fn carries(rt: &impl Print, old: OldArbiter) -> io::Result<()> {
    let done = carry(old);
    state(rt, done.after)?;
    accepted_or_refused(rt, done.answer)
}

// A start, posts and slots, three numbers to a call and to an answer; an answer that was not written is 7s.
pub fn replays(rt: &impl Print, t: Table, first: u64, calls: &[u32]) -> io::Result<()> {
    let mut answers = [7u64; 33];
    let done = replay(t, Slots(first), calls, &mut answers);
    print!(rt; " R")?;
    numbers(rt, &answers)?;
    state(rt, done.after)?;
    accepted_or_refused(rt, done.answer)
}

// The account of a place, and where the line stands: the slot number, and N.
pub fn looks(rt: &impl Print, s: Arbiter, place: usize) -> io::Result<()> {
    told_or_refused(rt, account(s, place), |account| {
        print!(rt; " c {} q {}", account.credit, account.backlog.0)
    })?;
    told_or_refused(rt, standing(s), |stands| {
        print!(rt; " s {} {}", stands.slot.0, stands.count)
    })
}
