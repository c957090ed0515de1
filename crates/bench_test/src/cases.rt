// Cases 1 to 13 are clauses 16.1 to 16.13; then come the thin form, more of replay and of writing, looks into a state, and requests 2, 4,
// 5 and 6.
use crate::answers::{
    admits, carries, chains, figures_of, leads, lends, looks, orders, reads_number, reads_table,
    replays, runs, writes_number, writes_table,
};
use arbiter::old::OldArbiter;
use arbiter::state::Arbiter;
use bench_parts::printing::{case, numbers};
use bench_parts::values::{account, needing, one_place, row, t, t_with, two_places};
use calls::post::post;
use calls::run::run;
use std::io;
use terms::units::{Slots, Transfers};

fn cases_1_and_2(rt: &impl Print) -> io::Result<()> {
    case(rt, 1)?;
    reads_table(rt, b"\x04\x02\x01\x08\x01\x04\x01\x04\x01\x07")?;
    case(rt, 2)?;
    reads_table(rt, b"\x04\x02\x01\x08\x01\x04\x01\x04\x01\x06")?;
    case(rt, 2)?;
    figures_of(rt, t_with(account(8, 0), account(4, 0), 0), 1)
}

// Clauses 16.3 and 16.4: nine slots one by one, and three.
fn cases_3_and_4(rt: &impl Print) -> io::Result<()> {
    let mut calls = [0u32; 33];
    calls[..6].copy_from_slice(&[1, 0, 3, 1, 1, 3]);
    case(rt, 3)?;
    replays(rt, t(), 0, &calls)?;
    case(rt, 4)?;
    replays(rt, t(), 0, &calls[0..15])
}

// Clauses 16.3 and 16.5: the nine slots as a run, and the leads over its log.
fn cases_3_and_5(rt: &impl Print) -> io::Result<()> {
    let s = t_with(account(8, 3), account(4, 3), 0);
    let mut log = [170u8; 9];
    case(rt, 3)?;
    runs(rt, s, &mut log)?;
    case(rt, 5)?;
    leads(rt, s, 0, &log)?;
    case(rt, 5)?;
    leads(rt, s, 1, &log)?;
    case(rt, 5)?;
    leads(rt, s, 1, &[0, 0])
}

fn reads(rt: &impl Print, bytes: &[u8]) -> io::Result<()> {
    case(rt, 6)?;
    reads_number(rt, bytes)
}

fn case_6(rt: &impl Print) -> io::Result<()> {
    reads(rt, b"\xac\x02")?;
    reads(rt, b"\x84\x00")?;
    reads(rt, b"\xff\xff\xff\xff\x0f")?;
    reads(rt, b"\xff\xff\xff\xff\x10")?;
    case(rt, 6)?;
    writes_number(rt, 300)?;
    case(rt, 6)?;
    writes_number(rt, 4294967295)
}

// Rates that share out more than the line, and just the line.
fn case_7(rt: &impl Print) -> io::Result<()> {
    case(rt, 7)?;
    admits(rt, two_places(4, row(3, 4, 1000), row(2, 4, 1000)))?;
    case(rt, 7)?;
    admits(rt, two_places(4, row(3, 4, 1000), row(1, 4, 1000)))
}

fn admits_one(rt: &impl Print, k: u64, d: u64, burst: u64) -> io::Result<()> {
    case(rt, k)?;
    admits(rt, one_place(d, row(1, burst, 1000000)))
}

// A burst below D, and at it; the limits of D; and no bytes.
fn cases_8_and_13(rt: &impl Print) -> io::Result<()> {
    admits_one(rt, 8, 4, 3)?;
    admits_one(rt, 8, 4, 4)?;
    admits_one(rt, 13, 65535, 65536)?;
    admits_one(rt, 13, 0, 65536)?;
    admits_one(rt, 13, 65536, 65536)?;
    case(rt, 13)?;
    reads_table(rt, b"")
}

// Clauses 16.9 and 16.10: a full backlog; and the last slot that has a number, with the one after it.
fn cases_9_and_10(rt: &impl Print) -> io::Result<()> {
    case(rt, 9)?;
    replays(rt, t(), 0, &[1, 0, 65535, 1, 0, 0, 1, 0, 1])?;
    case(rt, 10)?;
    replays(rt, t(), 4611686018427387903, &[0, 0, 0, 0, 0, 0])
}

fn case_11(rt: &impl Print) -> io::Result<()> {
    let begun = Arbiter::start(two_places(5, row(1, 6, 5), row(2, 5, 5)), Slots(0));
    case(rt, 11)?;
    figures_of(rt, begun.after, 1)
}

// Clause 16.12: place 1 always waits, and place 0 not before slot 11.
fn case_12(rt: &impl Print) -> io::Result<()> {
    let mut early = [170u8; 11];
    let mut late = [170u8; 13];
    let begun = Arbiter::start(two_places(4, row(1, 40, 4), row(1, 4, 18)), Slots(0));
    let waiting = post(begun.after, 1, Transfers(24));
    let before = run(waiting.after, &mut early);
    let posted = post(before.after, 0, Transfers(30));
    case(rt, 12)?;
    numbers(rt, &early)?;
    runs(rt, posted.after, &mut late)
}

// Clause 1.4's slot through a reference: granted, idle, 22 and 23.
fn thin_form(rt: &impl Print) -> io::Result<()> {
    lends(rt, t_with(account(8, 1), account(4, 1), 0))?;
    lends(rt, t_with(account(2, 1), account(2, 1), 0))?;
    lends(
        rt,
        t_with(account(8, 1), account(4, 0), 4611686018427387904),
    )?;
    lends(
        rt,
        t_with(account(9, 1), account(0, 0), 4611686018427387904),
    )
}

// Clause 10.8: refused posts before two slots, half a call, and a start that is refused.
fn lists_of_calls(rt: &impl Print) -> io::Result<()> {
    case(rt, 0)?;
    replays(
        rt,
        t(),
        0,
        &[1, 0, 1, 1, 2, 1, 1, 0, 65536, 0, 0, 0, 0, 0, 0],
    )?;
    case(rt, 0)?;
    replays(rt, t(), 0, &[1, 1, 2, 0, 0])?;
    case(rt, 0)?;
    replays(rt, t(), 4611686018427387905, &[1, 1, 2])
}

// Clause 3.5: T is written into a buffer with a byte to spare, and into one that is a byte short.
fn written(rt: &impl Print) -> io::Result<()> {
    let mut roomy = [170u8; 11];
    let mut short = [170u8; 9];
    case(rt, 1)?;
    writes_table(rt, t(), &mut roomy)?;
    case(rt, 0)?;
    writes_table(rt, t(), &mut short)
}

// Clauses 8.1 and 8.2: T's requestors the other way round, then with one slot less for the probe, and with a rate of 0 at place 1.
fn put_in_order(rt: &impl Print) -> io::Result<()> {
    case(rt, 0)?;
    orders(rt, two_places(4, row(1, 4, 7), row(1, 8, 4)))?;
    case(rt, 0)?;
    orders(rt, two_places(4, row(1, 4, 6), row(1, 8, 4)))?;
    case(rt, 0)?;
    orders(rt, two_places(4, row(1, 4, 6), row(0, 8, 4)))
}

// Clauses 9.2 and 9.3: T's probe behind its pump, the two behind each other, and the probe behind a place that is not there.
fn one_behind_the_other(rt: &impl Print) -> io::Result<()> {
    let s = t_with(account(8, 0), account(4, 0), 0);
    case(rt, 0)?;
    chains(rt, s, 1, b"\xff\x00")?;
    case(rt, 0)?;
    chains(rt, s, 1, b"\x01\x00")?;
    case(rt, 0)?;
    chains(rt, s, 0, b"\xff\x02")
}

// T after the first two slots of clause 16.3 as an old unit kept it, with this N.
fn old_t(n: u64) -> OldArbiter {
    let mut words = [0u64; OldArbiter::WORDS];
    words[..3].copy_from_slice(&[4, n, 2]);
    words[3..9].copy_from_slice(&[1, 8, 1, 4, 2, 1]);
    words[9..15].copy_from_slice(&[1, 4, 1, 7, 6, 3]);
    OldArbiter { words }
}

// Clause 11.4: an old state in the middle of its run, one whose N counts a place of zeros in, and one with N above the old limit.
fn carried_over(rt: &impl Print) -> io::Result<()> {
    case(rt, 0)?;
    carries(rt, old_t(2))?;
    case(rt, 0)?;
    carries(rt, old_t(3))?;
    case(rt, 0)?;
    carries(rt, old_t(Arbiter::OLD_PLACES as u64 + 1))
}

// Clause 16.17: T with two transfers in the pump's need, which its burst just holds, and with three; the probe's with two, as a table, as
// a list, as bytes that end behind it, and to be written.
fn needs_above_bursts(rt: &impl Print) -> io::Result<()> {
    let mut buffer = [170u8; 3];
    let long = two_places(4, row(1, 8, 4), needing(2, row(1, 4, 11)));
    case(rt, 0)?;
    admits(rt, two_places(4, needing(2, row(1, 8, 8)), row(1, 4, 7)))?;
    case(rt, 0)?;
    admits(rt, two_places(4, needing(3, row(1, 8, 12)), row(1, 4, 7)))?;
    case(rt, 0)?;
    admits(rt, long)?;
    case(rt, 0)?;
    orders(rt, long)?;
    case(rt, 0)?;
    reads_table(rt, b"\x04\x02\x01\x04\x02\x0b")?;
    case(rt, 0)?;
    writes_table(rt, long, &mut buffer)
}

// Clause 11.3: a place, one that is not there, and a state with a credit above its burst.
fn looks_into_a_state(rt: &impl Print) -> io::Result<()> {
    let s = t_with(account(5, 3), account(2, 1), 7);
    case(rt, 0)?;
    looks(rt, s, 1)?;
    case(rt, 0)?;
    looks(rt, s, 2)?;
    case(rt, 0)?;
    looks(rt, t_with(account(9, 0), account(4, 0), 0), 0)
}

pub fn all(rt: &impl Print) -> io::Result<()> {
    cases_1_and_2(rt)?;
    cases_3_and_4(rt)?;
    cases_3_and_5(rt)?;
    case_6(rt)?;
    case_7(rt)?;
    cases_9_and_10(rt)?;
    case_11(rt)?;
    case_12(rt)?;
    cases_8_and_13(rt)?;
    thin_form(rt)?;
    lists_of_calls(rt)?;
    written(rt)?;
    looks_into_a_state(rt)?;
    put_in_order(rt)?;
    one_behind_the_other(rt)?;
    carried_over(rt)?;
    needs_above_bursts(rt)
}
