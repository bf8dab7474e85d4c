// Calls in edition 2 beside edition 1, and in an edition that is none, as docs/CALLS.md shows them. The star of ten has nine neighbours at its middle.
use super::calls::same_in;
use shown::{answer, given, sized, text};
use std::io;

// Which edition the call behind it is told.
fn named(rt: &impl Print, edition: usize) -> io::Result<()> {
    print!(rt; "edition {edition}: ")
}

fn code(rt: &impl Print, edition: usize, digits: &[u8]) -> io::Result<()> {
    named(rt, edition)?;
    given(rt, b"check_code", digits)?;
    answer(rt, zurkhovel::codes::check_code(edition, digits), &[])
}

fn packed(rt: &impl Print, edition: usize, bytes: &[u8]) -> io::Result<()> {
    let mut out = [0u8; 126];
    named(rt, edition)?;
    given(rt, b"unpack", bytes)?;
    let a = zurkhovel::bit_tuple::unpack(edition, bytes, &mut out);
    answer(rt, a, &out)
}

fn centred(rt: &impl Print, edition: usize, n: usize, edges: &[u8]) -> io::Result<()> {
    let mut out = [0u8; 64];
    named(rt, edition)?;
    sized(rt, b"centred_code", n, edges)?;
    let a = zurkhovel::codes::centred_code(edition, n, edges, &mut out);
    answer(rt, a, &out)
}

fn line(rt: &impl Print, edition: usize) -> io::Result<()> {
    let mut out = [0u8; 64];
    named(rt, edition)?;
    text(rt, b"read_line of '10 9000000000'")?;
    let a = zurkhovel::text::read_line(edition, b"10 9000000000\n", &mut out);
    answer(rt, a, &out)
}

pub(crate) fn examples(rt: &impl Print) -> io::Result<()> {
    code(rt, 1, &[9, 0, 0, 0, 0, 0, 0, 0, 0, 0])?;
    code(rt, 2, &[9, 0, 0, 0, 0, 0, 0, 0, 0, 0])?;
    code(rt, 2, &[1, 9, 0, 0, 0, 0, 0, 0, 0, 0, 0])?;
    code(rt, 0, &[9])?;
    code(rt, 3, &[])?;
    packed(rt, 2, &[255, 128, 0])?;
    packed(rt, 2, &[255, 192])?;
    centred(rt, 1, 6, &[1, 2, 1, 3, 1, 4, 1, 5, 1, 6])?;
    centred(rt, 2, 6, &[1, 2, 1, 3, 1, 4, 1, 5, 1, 6])?;
    centred(
        rt,
        2,
        11,
        &[1, 2, 1, 3, 1, 4, 1, 5, 1, 6, 1, 7, 1, 8, 1, 9, 1, 10, 1, 11],
    )?;
    line(rt, 1)?;
    line(rt, 2)?;
    named(rt, 3)?;
    same_in(rt, 3, 1, &[], 1, &[])
}
