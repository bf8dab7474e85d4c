// A line, or a call, for each refusal number.
use super::written::line;
use shown::{answer, numbered, rooted, sized, text};
use std::io;

// The first line of a text, with room for 64 digits.
pub(crate) fn read(rt: &impl Print, s: &[u8]) -> io::Result<()> {
    let mut out = [0u8; 64];
    text(rt, b"read_line '")?;
    line(rt, s)?;
    text(rt, b"'")?;
    let a = zurkhovel::text::read_line(1, s, &mut out);
    answer(rt, a, &out)
}

fn misformed(rt: &impl Print) -> io::Result<()> {
    read(rt, b"1 0\n")?;
    read(rt, b"6 220010\n")?;
    read(rt, b"6 220010")?;
    read(rt, b"6 220010\r\n")?;
    read(rt, b"\xEF\xBB\xBF6 220010\n")?;
    read(rt, b"\n")?;
    read(rt, b"6 220010 \n")?;
    read(rt, b"6  220010\n")?;
    read(rt, b"6 2200,10\n")?;
    read(rt, b"06 220010\n")?;
    read(rt, b"100 0\n")
}

fn no_centred_code(rt: &impl Print) -> io::Result<()> {
    read(rt, b"0 0\n")?;
    read(rt, b"65 0\n")?;
    read(rt, b"7 220010\n")?;
    read(rt, b"6 250010\n")?;
    read(rt, b"6 200010\n")?;
    read(rt, b"6 220011\n")?;
    read(rt, b"6 210200\n")?;
    read(rt, b"6 311000\n")
}

// An edge list, with vertex 1 for a root.
fn edges(rt: &impl Print, n: usize, list: &[u8]) -> io::Result<()> {
    rooted(rt, b"check_edges", n, list, 1)?;
    answer(rt, zurkhovel::codes::check_edges(1, n, list, 1), &[])
}

fn lists(rt: &impl Print) -> io::Result<()> {
    edges(rt, 3, &[1, 2])?;
    edges(rt, 3, &[0, 1, 1, 2])?;
    edges(rt, 3, &[1, 2, 2, 2])?;
    edges(rt, 4, &[1, 2, 2, 3, 3, 1])?;
    edges(rt, 6, &[1, 2, 1, 3, 1, 4, 1, 5, 1, 6])
}

fn numbers(rt: &impl Print) -> io::Result<()> {
    let mut out = [0u8; 2];
    numbered(rt, b"unwhole", 3, 32)?;
    let a = zurkhovel::bit_tuple::unwhole(1, 3, 32, &mut out);
    answer(rt, a, &out)?;
    sized(rt, b"cam", 3, &[1, 3, 3, 2])?;
    let b = zurkhovel::matrix::cam(1, 3, &[1, 3, 3, 2], &mut out);
    answer(rt, b, &out)?;
    sized(rt, b"centred_code", 3, &[1, 2, 2, 3])?;
    text(rt, b" into 2 bytes")?;
    let c = zurkhovel::codes::centred_code(1, 3, &[1, 2, 2, 3], &mut out);
    answer(rt, c, &out)
}

pub(crate) fn answers(rt: &impl Print) -> io::Result<()> {
    misformed(rt)?;
    no_centred_code(rt)?;
    lists(rt)?;
    numbers(rt)
}
