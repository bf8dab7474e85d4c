// Skeletons with named atoms: methanol, a chain of six with a nitrogen, ethanol and dimethyl ether; and a named line for each refusal number.
use super::refusals::read;
use super::written::line;
use shown::{answer, both, given, lettered, text};
use std::io;

fn centred(rt: &impl Print, n: usize, edges: &[u8], letters: &[u8]) -> io::Result<()> {
    let mut out = [0u8; 6];
    let mut spelling = [0u8; 6];
    lettered(rt, b"centred_code", n, edges, letters)?;
    let a = named::codes::centred_code(n, edges, letters, &mut out, &mut spelling);
    both(rt, a, &out, &spelling, n)
}

// Of a chain of six, at a vertex.
fn rooted(rt: &impl Print, edges: &[u8], letters: &[u8], v: usize) -> io::Result<()> {
    let mut out = [0u8; 6];
    let mut spelling = [0u8; 6];
    lettered(rt, b"rooted_code", 6, edges, letters)?;
    print!(rt; ", {v}")?;
    let a = named::codes::rooted_code(6, edges, letters, v, &mut out, &mut spelling);
    both(rt, a, &out, &spelling, 6)
}

// At the two middles of the chain; and what its digits are by themselves.
fn chain(rt: &impl Print, edges: &[u8], letters: &[u8]) -> io::Result<()> {
    rooted(rt, edges, letters, 3)?;
    rooted(rt, edges, letters, 4)?;
    centred(rt, 6, edges, letters)?;
    read(rt, b"6 210110\n")
}

// Of three vertices each, the first along its chain.
fn same(rt: &impl Print, letters1: &[u8], edges2: &[u8], letters2: &[u8]) -> io::Result<()> {
    lettered(rt, b"same_skeleton", 3, &[1, 2, 2, 3], letters1)?;
    text(rt, b", 3")?;
    given(rt, b",", edges2)?;
    text(rt, b", ")?;
    text(rt, letters2)?;
    let r = named::codes::same_skeleton(3, &[1, 2, 2, 3], letters1, 3, edges2, letters2);
    answer(rt, r, &[])
}

fn classes(rt: &impl Print, letters: &[u8]) -> io::Result<()> {
    let mut out = [0u8; 3];
    lettered(rt, b"equal_vertices", 3, &[1, 2, 2, 3], letters)?;
    let a = named::alike::equal_vertices(3, &[1, 2, 2, 3], letters, &mut out);
    answer(rt, a, &out)
}

// The packed form at vertex 1, and the named line, of two vertices.
fn two(rt: &impl Print, letters: &[u8]) -> io::Result<()> {
    let mut out = [0u8; 14];
    lettered(rt, b"pack", 2, &[1, 2], letters)?;
    text(rt, b", 1")?;
    let a = named::carbon::pack(2, &[1, 2], letters, 1, &mut out);
    answer(rt, a, &out)?;
    lettered(rt, b"write_line", 2, &[1, 2], letters)?;
    let b = named::text::write_line(2, &[1, 2], letters, &mut out);
    answer(rt, b, &out)
}

// The first line of a text, and as many letters as it has digits.
fn named_read(rt: &impl Print, s: &[u8], n: usize) -> io::Result<()> {
    let mut out = [0u8; 64];
    let mut spelling = [0u8; 64];
    text(rt, b"named read_line '")?;
    line(rt, s)?;
    text(rt, b"'")?;
    let a = named::text::read_line(s, &mut out, &mut spelling);
    both(rt, a, &out, &spelling, n)
}

fn misformed(rt: &impl Print) -> io::Result<()> {
    named_read(rt, b"2 10 OC 1 0 1\n", 2)?;
    named_read(rt, b"6 210110 CNCCCC 5 1 0\n", 6)?;
    named_read(rt, b"2 10 OC 1 0 1", 0)?;
    named_read(rt, b"6 220010\n", 0)?;
    named_read(rt, b"2 10 oc 1 0 1\n", 0)?;
    named_read(rt, b"2 10 OC 1 00 1\n", 0)?;
    named_read(rt, b"2 10 OC 1 0\n", 0)
}

fn no_centred_code(rt: &impl Print) -> io::Result<()> {
    named_read(rt, b"2 10 OCC 2 0 1\n", 0)?;
    named_read(rt, b"2 10 OC 0 1 1\n", 0)?;
    named_read(rt, b"2 10 OC 1 0 18446744073709551617\n", 0)?;
    named_read(rt, b"3 004 COC 2 0 1\n", 0)?;
    named_read(rt, b"3 002 CCO 2 0 1\n", 0)?;
    named_read(rt, b"5 40000 NCCCC 4 1 0\n", 0)?;
    named_read(rt, b"3 200 CCO 2 0 1\n", 0)?;
    named_read(rt, b"2 10 CO 1 0 1\n", 0)?;
    named_read(rt, b"6 211010 CCNCCC 5 1 0\n", 0)
}

// An edge list with letters, with vertex 1 for a root.
fn edges(rt: &impl Print, n: usize, list: &[u8], letters: &[u8]) -> io::Result<()> {
    lettered(rt, b"check_edges", n, list, letters)?;
    text(rt, b", 1")?;
    answer(rt, named::codes::check_edges(n, list, letters, 1), &[])
}

pub(crate) fn examples(rt: &impl Print) -> io::Result<()> {
    centred(rt, 2, &[1, 2], b"CO")?;
    chain(rt, &[1, 2, 2, 3, 3, 4, 4, 5, 5, 6], b"CNCCCC")?;
    same(rt, b"CCO", &[1, 2, 1, 3], b"CCO")?;
    same(rt, b"CCO", &[1, 2, 2, 3], b"COC")?;
    classes(rt, b"CCO")?;
    classes(rt, b"COC")?;
    two(rt, b"CO")?;
    misformed(rt)?;
    no_centred_code(rt)?;
    edges(rt, 2, &[1, 2], b"CH")?;
    edges(rt, 2, &[1, 2], b"C")?;
    edges(rt, 5, &[1, 2, 1, 3, 1, 4, 1, 5], b"NCCCC")?;
    edges(rt, 6, &[1, 2, 1, 3, 1, 4, 1, 5, 1, 6], b"NCCCCC")
}
