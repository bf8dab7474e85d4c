// What calls answer that report how many pairs they looked at, and that go through a text, written out.
use super::{Shown, answer, both, front, given, text};
use lines::Progress;
use refusal::{Refusal, Reported};
use std::io;

// How many pairs of digits a call reports that it looked at; with a refusal 0.
fn pairs<T, E>(call: &Result<Reported<T>, E>) -> usize {
    match call {
        Ok(reported) => reported.pairs,
        Err(_) => 0,
    }
}

pub fn looked(rt: &impl Print, name: &[u8], pairs: usize) -> io::Result<()> {
    text(rt, name)?;
    println!(rt; " looked at {pairs}")
}

// The answer of a call that reports, what was written, and what it reports.
pub fn told<T: Shown + Drop, E: Shown + Drop>(
    rt: &impl Print,
    name: &[u8],
    call: Result<Reported<T>, E>,
    out: &[u8],
) -> io::Result<()> {
    let pairs = pairs(&call);
    answer(rt, call, out)?;
    looked(rt, name, pairs)
}

// The same with the n letters that were written beside it.
pub fn both_told<T: Shown + Drop>(
    rt: &impl Print,
    name: &[u8],
    call: Result<Reported<T>, Refusal>,
    out: &[u8],
    spelling: &[u8],
    n: usize,
) -> io::Result<()> {
    let pairs = pairs(&call);
    both(rt, call, out, spelling, n)?;
    looked(rt, name, pairs)
}

// How far a reader of three lines got, their numbers and their places.
pub fn progress(
    rt: &impl Print,
    p: Progress,
    numbers: &[u8; 3],
    places: &[usize; 3],
) -> io::Result<()> {
    print!(rt; " = lines {}, at {}", p.lines, p.at)?;
    given(rt, b"; numbers", numbers)?;
    text(rt, b"; places")?;
    for place in places {
        print!(rt; " {place}")?;
    }
    Ok(())
}

// The n bytes that a listing has from a byte on.
pub fn piece(rt: &impl Print, from: usize, out: &[u8], n: usize) -> io::Result<()> {
    print!(rt; " from {from}, lent {} = {n};", out.len())?;
    front(rt, out, n)?;
    text(rt, b"\n")
}
