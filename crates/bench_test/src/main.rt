// Clauses 16.1 to 16.13 through the calls by value, as cases 1 to 13, and beside them, as case 0, the thin form, replay, a short buffer,
// looks into a state, orders, chains, an old state and needs above their bursts: what only Rattle code can call. The rows of refusals and
// edges are data for the tests in Rust (tests/rows.txt), and those that no exported function reaches are proved rows (crates/cases).
//
// A line has its case, what was handed back, and the answer, in letters and numbers:
//
//     T D N, n b j L twice       a table, as far as its first two places
//     c two q two s one          a state: the credits and the backlogs of places 0 and 1, and the slot number
//     c one q one s two          what was asked of a state: a place's credit and backlog, the slot number and N
//     A                          accepted
//     X number, I or S, p place  refused, caused by the input or by the state, with the place that is named
//     g place @ stamp, - @ stamp a slot that was granted, and an idle one
//     t bytes, E, M              how many bytes a number takes; bytes that ended, or that are no number
//     t bytes b bytes            how many bytes a number takes, and how many were written
//     w slots f slots, m number  the wait and the finish figure; a lead below 0
//     R, L                       the answers of a replay come next, three numbers to a call; a state that was lent
//
// The bytes of a log and of a buffer are numbers too.
#![tactic(auto)]

mod answers;
mod cases;

use std::io;

fn main(rt: HostRuntime) -> io::Result<()> {
    cases::all(&rt)?;
    println!(rt; "")
}
