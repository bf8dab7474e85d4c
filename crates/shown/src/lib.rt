// Writing what a call was handed, and what it answered.
#![tactic(auto)]

pub mod report;

use refusal::{ListRefusal, Refusal, Reported};
use std::io;

pub fn text(rt: &impl Print, s: &[u8]) -> io::Result<()> {
    rt.write_all(s)
}

// Bytes by their values.
pub fn list(rt: &impl Print, s: &[u8]) -> io::Result<()> {
    for b in s {
        print!(rt; " {b}")?;
    }
    Ok(())
}

// A call by its name, with a list that it is handed.
pub fn given(rt: &impl Print, name: &[u8], s: &[u8]) -> io::Result<()> {
    text(rt, name)?;
    list(rt, s)
}

// With N and a list.
pub fn sized(rt: &impl Print, name: &[u8], n: usize, s: &[u8]) -> io::Result<()> {
    text(rt, name)?;
    print!(rt; " {n},")?;
    list(rt, s)
}

// With N, a list and a vertex.
pub fn rooted(rt: &impl Print, name: &[u8], n: usize, s: &[u8], v: usize) -> io::Result<()> {
    sized(rt, name, n, s)?;
    print!(rt; ", {v}")
}

// With N and a number.
pub fn numbered(rt: &impl Print, name: &[u8], n: usize, value: u64) -> io::Result<()> {
    text(rt, name)?;
    print!(rt; " {n}, {value}")
}

// A call on named atoms, with digits and a letter for each.
pub fn spelled(rt: &impl Print, name: &[u8], code: &[u8], letters: &[u8]) -> io::Result<()> {
    text(rt, b"named ")?;
    given(rt, name, code)?;
    text(rt, b", ")?;
    text(rt, letters)
}

// With N, an edge list and a letter for each vertex.
pub fn lettered(
    rt: &impl Print,
    name: &[u8],
    n: usize,
    edges: &[u8],
    letters: &[u8],
) -> io::Result<()> {
    text(rt, b"named ")?;
    sized(rt, name, n, edges)?;
    text(rt, b", ")?;
    text(rt, letters)
}

// What a call gives, where it may have written into `out`, or what it refuses.
pub trait Shown {
    fn show<R: Print>(&self, rt: &R, out: &[u8]) -> io::Result<()>;
}

// How many bytes were written, and which.
impl Shown for usize {
    fn show<R: Print>(&self, rt: &R, out: &[u8]) -> io::Result<()> {
        print!(rt; " = Done({self})")?;
        front(rt, out, *self)
    }
}

// That a check passed.
impl Shown for () {
    fn show<R: Print>(&self, rt: &R, _: &[u8]) -> io::Result<()> {
        text(rt, b" = Done(0)")
    }
}

impl Shown for u64 {
    fn show<R: Print>(&self, rt: &R, _: &[u8]) -> io::Result<()> {
        print!(rt; " = Value({self})")
    }
}

impl Shown for f64 {
    fn show<R: Print>(&self, rt: &R, _: &[u8]) -> io::Result<()> {
        print!(rt; " = Exact({self})")
    }
}

// The verdict.
impl Shown for bool {
    fn show<R: Print>(&self, rt: &R, _: &[u8]) -> io::Result<()> {
        text(rt, if *self { b" = Same" } else { b" = Different" })
    }
}

// Without the number that is reported.
impl<T: Shown> Shown for Reported<T> {
    fn show<R: Print>(&self, rt: &R, out: &[u8]) -> io::Result<()> {
        self.value.show(rt, out)
    }
}

// The number, and the place.
impl Shown for Refusal {
    fn show<R: Print>(&self, rt: &R, _: &[u8]) -> io::Result<()> {
        print!(rt; " = Refused({}, {})", self.row, self.place)
    }
}

// Which list, or 3 for the map, or 0 for the edition; the number, and the place.
impl Shown for ListRefusal {
    fn show<R: Print>(&self, rt: &R, _: &[u8]) -> io::Result<()> {
        print!(rt;
            " = Refused({}, {}, {})",
            self.list, self.refusal.row, self.refusal.place
        )
    }
}

// An answer, and what was written.
pub fn answer<T: Shown + Drop, E: Shown + Drop>(
    rt: &impl Print,
    answer: Result<T, E>,
    out: &[u8],
) -> io::Result<()> {
    match answer {
        Ok(given) => given.show(rt, out)?,
        Err(refusal) => refusal.show(rt, out)?,
    }
    text(rt, b"\n")
}

// The first n bytes of an output.
pub fn front(rt: &impl Print, out: &[u8], n: usize) -> io::Result<()> {
    list(rt, out.get(..n).unwrap_or(&[]))
}

// An answer, what was written, and the n letters that were written beside it.
pub fn both<T: Shown + Drop>(
    rt: &impl Print,
    answer: Result<T, Refusal>,
    out: &[u8],
    spelling: &[u8],
    n: usize,
) -> io::Result<()> {
    match answer {
        Ok(given) => {
            given.show(rt, out)?;
            text(rt, b", ")?;
            text(rt, spelling.get(..n).unwrap_or(&[]))?;
        }
        Err(refusal) => refusal.show(rt, out)?,
    }
    text(rt, b"\n")
}
