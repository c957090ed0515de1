// What a line is made of: each part is printed behind a space. What the letters stand for is said at the head of the test program.
use arbiter::state::Arbiter;
use arbiter::table::Table;
use layout::words::{account, slot_number};
use std::fmt::Display;
use std::io;
use terms::place::Requestor;
use terms::refusals::{Cause, Origin};

// A line begins with its case; 0 is none of clauses 16.1 to 16.13.
pub fn case(rt: &impl Print, k: u64) -> io::Result<()> {
    print!(rt; "\ncase {k}")
}

// The bytes of a log or of a buffer, or a replay's answers.
pub fn numbers<T: Display>(rt: &impl Print, numbers: &[T]) -> io::Result<()> {
    for number in numbers {
        print!(rt; " {number}")?;
    }
    Ok(())
}

// The refusal's number, what caused it, and the place that it names.
fn refused(rt: &impl Print, why: Cause) -> io::Result<()> {
    let refusal = why.refusal();
    let by = match refusal.origin {
        Origin::Input => 'I',
        Origin::State => 'S',
    };
    print!(rt; " X {} {by}", refusal.number)?;
    match refusal.place {
        Some(p) => print!(rt; " p {p}"),
        None => Ok(()),
    }
}

// What an answer tells, as the caller prints it, or why the call was refused.
pub fn told_or_refused<T, Tell: FnOnce(T) -> io::Result<()>>(
    rt: &impl Print,
    answer: Result<T, Cause>,
    tell: Tell,
) -> io::Result<()>
    requires { Tell.IsAlwaysCallable tell }
{
    match answer {
        Ok(told) => tell(told),
        Err(why) => refused(rt, why),
    }
}

// An answer that has nothing to tell but that the call was carried out.
pub fn accepted_or_refused(rt: &impl Print, answer: Result<(), Cause>) -> io::Result<()> {
    told_or_refused(rt, answer, |_| print!(rt; " A"))
}

// The credits and the backlogs of places 0 and 1, and the slot number.
pub fn state(rt: &impl Print, s: Arbiter) -> io::Result<()> {
    let first = account(&s.words, 0);
    let second = account(&s.words, 1);
    print!(rt; " c {} {}", first.credit, second.credit)?;
    print!(rt; " q {} {}", first.backlog.0, second.backlog.0)?;
    print!(rt; " s {}", slot_number(&s.words).0)
}

fn requestor(rt: &impl Print, r: Requestor) -> io::Result<()> {
    print!(rt; " {} {} {} {}", r.rate, r.burst, r.need.0, r.within.0)
}

// D, N and the rows of places 0 and 1, in the order of a table's bytes.
pub fn table(rt: &impl Print, t: Table) -> io::Result<()> {
    print!(rt; " T {} {}", t.denominator, t.count)?;
    requestor(rt, t.requestors[0])?;
    requestor(rt, t.requestors[1])
}
