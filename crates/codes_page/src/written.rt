// Digits, bytes and lines as the page writes them.
use shown::text;
use std::io;

// The first n digits of a code, one behind the other.
pub(crate) fn digits(rt: &impl Print, code: &[u8], n: usize) -> io::Result<()> {
    for d in code.iter().take(n) {
        print!(rt; "{d}")?;
    }
    Ok(())
}

// The first n bytes in hexadecimal, each with a space before it.
pub(crate) fn bytes(rt: &impl Print, s: &[u8], n: usize) -> io::Result<()> {
    for b in s.iter().take(n) {
        print!(rt; " {b:02X}")?;
    }
    Ok(())
}

// A byte of a line, as printf takes it: one that prints is itself.
fn mark(rt: &impl Print, b: u8) -> io::Result<()> {
    match b {
        b'\n' => text(rt, b"\\n"),
        b'\r' => text(rt, b"\\r"),
        b' '..=b'~' => text(rt, &[b]),
        _ => print!(rt; "\\x{b:02X}"),
    }
}

// A line with all its marks.
pub(crate) fn line(rt: &impl Print, s: &[u8]) -> io::Result<()> {
    for b in s {
        mark(rt, *b)?;
    }
    Ok(())
}
