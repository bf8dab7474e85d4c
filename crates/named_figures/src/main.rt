// One worked example for each public call on skeletons with named atoms, as docs/CALLS.md shows it. What this writes is held to the file stdout, as in `figures`.
#![tactic(auto)]

use shown::report::{both_told, piece, progress, told};
use shown::{answer, both, given, lettered, spelled, text};
use std::io;

fn code(rt: &impl Print, digits: &[u8], letters: &[u8]) -> io::Result<()> {
    spelled(rt, b"check_code", digits, letters)?;
    answer(rt, named::codes::check_code(digits, letters), &[])
}

// Of methanol, its code at either atom.
fn decoded(rt: &impl Print) -> io::Result<()> {
    let mut edges = [0u8; 10];
    let mut spelling = [0u8; 6];
    spelled(rt, b"decode_code", &[1, 0], b"CO")?;
    let a = named::codes::decode_code(&[1, 0], b"CO", &mut edges, &mut spelling);
    both(rt, a, &edges, &spelling, 2)?;
    spelled(rt, b"decode_n_tuple", &[2, 1, 1, 1, 0, 0], b"NCCCCC")?;
    let b = named::codes::decode_n_tuple(&[2, 1, 1, 1, 0, 0], b"NCCCCC", &mut edges, &mut spelling);
    both(rt, b, &edges, &spelling, 6)
}

fn centred(rt: &impl Print, digits: &[u8], letters: &[u8]) -> io::Result<()> {
    let mut edges = [0u8; 126];
    let mut spelling = [0u8; 64];
    spelled(rt, b"decode_centred", digits, letters)?;
    let a = named::codes::decode_centred(digits, letters, &mut edges, &mut spelling);
    both(rt, a, &edges, &spelling, digits.len())
}

fn codes(rt: &impl Print) -> io::Result<()> {
    code(rt, &[1, 0], b"OC")?;
    code(rt, &[1, 0], b"OX")?;
    code(rt, &[1, 0], b"O")?;
    code(rt, &[0, 0, 4], b"COC")?;
    code(rt, &[0, 0, 2], b"CCO")?;
    decoded(rt)?;
    centred(rt, &[1, 0], b"OC")?;
    centred(rt, &[1, 0], b"CO")?;
    centred(rt, &[2, 1, 0, 1, 1, 0], b"CNCCCC")?;
    centred(rt, &[2, 1, 1, 0, 1, 0], b"CCNCCC")
}

// An edge list with letters, and the root 1.
fn list(rt: &impl Print, n: usize, edges: &[u8], letters: &[u8]) -> io::Result<()> {
    lettered(rt, b"check_edges", n, edges, letters)?;
    text(rt, b", 1")?;
    answer(rt, named::codes::check_edges(n, edges, letters, 1), &[])
}

fn lists(rt: &impl Print) -> io::Result<()> {
    list(rt, 4, &[1, 2, 1, 3, 1, 4], b"NCCC")?;
    list(rt, 4, &[1, 2, 1, 3, 1, 4], b"NCC")?;
    list(rt, 5, &[1, 2, 1, 3, 1, 4, 1, 5], b"NCCCC")?;
    list(rt, 6, &[1, 2, 1, 3, 1, 4, 1, 5, 1, 6], b"NCCCCC")
}

fn centred_of(rt: &impl Print, n: usize, edges: &[u8], letters: &[u8]) -> io::Result<()> {
    let mut out = [0u8; 64];
    let mut spelling = [0u8; 64];
    lettered(rt, b"centred_code", n, edges, letters)?;
    let a = named::codes::centred_code(n, edges, letters, &mut out, &mut spelling);
    both_told(rt, b"named centred_code", a, &out, &spelling, n)
}

// Of a chain of six.
fn coded_of(rt: &impl Print, edges: &[u8], letters: &[u8]) -> io::Result<()> {
    let mut out = [0u8; 6];
    let mut spelling = [0u8; 6];
    lettered(rt, b"rooted_code", 6, edges, letters)?;
    text(rt, b", 4")?;
    let a = named::codes::rooted_code(6, edges, letters, 4, &mut out, &mut spelling);
    both_told(rt, b"named rooted_code", a, &out, &spelling, 6)?;
    lettered(rt, b"n_tuple_code", 6, edges, letters)?;
    let b = named::codes::n_tuple_code(6, edges, letters, &mut out, &mut spelling);
    both_told(rt, b"named n_tuple_code", b, &out, &spelling, 6)?;
    centred_of(rt, 6, edges, letters)
}

// The second list as it is written behind the first.
fn second(rt: &impl Print, n: usize, edges: &[u8], letters: &[u8]) -> io::Result<()> {
    print!(rt; ", {n}")?;
    given(rt, b",", edges)?;
    text(rt, b", ")?;
    text(rt, letters)
}

// Of three vertices each.
fn same(rt: &impl Print, letters1: &[u8], edges2: &[u8], letters2: &[u8]) -> io::Result<()> {
    lettered(rt, b"same_skeleton", 3, &[1, 2, 2, 3], letters1)?;
    second(rt, 3, edges2, letters2)?;
    let r = named::codes::same_skeleton(3, &[1, 2, 2, 3], letters1, 3, edges2, letters2);
    told(rt, b"named same_skeleton", r, &[])
}

fn handed(rt: &impl Print, letters1: &[u8], edges2: &[u8], letters2: &[u8]) -> io::Result<()> {
    let mut out = [0u8; 3];
    lettered(rt, b"renumbering", 3, &[1, 2, 2, 3], letters1)?;
    second(rt, 3, edges2, letters2)?;
    let r = named::maps::renumbering(3, &[1, 2, 2, 3], letters1, 3, edges2, letters2, &mut out);
    told(rt, b"named renumbering", r, &out)
}

fn judged(
    rt: &impl Print,
    letters1: &[u8],
    edges2: &[u8],
    letters2: &[u8],
    map: &[u8],
) -> io::Result<()> {
    lettered(rt, b"check_renumbering", 3, &[1, 2, 2, 3], letters1)?;
    second(rt, 3, edges2, letters2)?;
    given(rt, b",", map)?;
    let edges1 = &[1, 2, 2, 3];
    let r = named::maps::check_renumbering(3, edges1, letters1, 3, edges2, letters2, map);
    answer(rt, r, &[])
}

// Ethanol twice, and dimethyl ether.
fn two_lists(rt: &impl Print) -> io::Result<()> {
    same(rt, b"CCO", &[1, 2, 1, 3], b"CCO")?;
    same(rt, b"CCO", &[1, 2, 2, 3], b"COC")?;
    same(rt, b"CCO", &[1, 2, 2, 3], b"COCC")?;
    handed(rt, b"CCO", &[1, 2, 1, 3], b"CCO")?;
    handed(rt, b"CCO", &[1, 2, 2, 3], b"COC")?;
    judged(rt, b"CCO", &[1, 2, 1, 3], b"CCO", &[2, 1, 3])?;
    judged(rt, b"CCO", &[1, 2, 1, 3], b"CCO", &[3, 1, 2])
}

fn classes(rt: &impl Print, n: usize, edges: &[u8], letters: &[u8]) -> io::Result<()> {
    let mut out = [0u8; 64];
    lettered(rt, b"equal_vertices", n, edges, letters)?;
    let a = named::alike::equal_vertices(n, edges, letters, &mut out);
    told(rt, b"named equal_vertices", a, &out)
}

// The bit forms at vertex 1, of 002's example with a letter for each vertex.
fn bits(rt: &impl Print, edges: &[u8], letters: &[u8]) -> io::Result<()> {
    let mut out = [0u8; 16];
    lettered(rt, b"pack", 8, edges, letters)?;
    text(rt, b", 1")?;
    let a = named::carbon::pack(8, edges, letters, 1, &mut out);
    told(rt, b"named pack", a, &out)?;
    lettered(rt, b"whole", 8, edges, letters)?;
    text(rt, b", 1")?;
    let b = named::carbon::whole(8, edges, letters, 1);
    told(rt, b"named whole", b, &[])?;
    lettered(rt, b"fraction", 8, edges, letters)?;
    text(rt, b", 1")?;
    let c = named::carbon::fraction(8, edges, letters, 1);
    told(rt, b"named fraction", c, &[])
}

fn cam(rt: &impl Print, n: usize, edges: &[u8], letters: &[u8]) -> io::Result<()> {
    let mut out = [0u8; 63];
    lettered(rt, b"cam", n, edges, letters)?;
    let a = named::carbon::cam(n, edges, letters, &mut out);
    answer(rt, a, &out)
}

// Of 001's example with a letter for each vertex.
fn matrices(rt: &impl Print, edges: &[u8], letters: &[u8]) -> io::Result<()> {
    let mut out = [0u8; 63];
    cam(rt, 7, edges, letters)?;
    lettered(rt, b"zero_a", 7, edges, letters)?;
    answer(rt, named::carbon::zero_a(7, edges, letters), &[])?;
    lettered(rt, b"a_zero", 7, edges, letters)?;
    answer(rt, named::carbon::a_zero(7, edges, letters), &[])?;
    lettered(rt, b"cam_by_code", 7, edges, letters)?;
    let a = named::carbon::cam_by_code(7, edges, letters, &mut out);
    told(rt, b"named cam_by_code", a, &out)?;
    lettered(rt, b"zero_a_by_code", 7, edges, letters)?;
    let b = named::carbon::zero_a_by_code(7, edges, letters);
    told(rt, b"named zero_a_by_code", b, &[])?;
    lettered(rt, b"a_zero_by_code", 7, edges, letters)?;
    let c = named::carbon::a_zero_by_code(7, edges, letters);
    told(rt, b"named a_zero_by_code", c, &[])
}

fn plain(rt: &impl Print, n: usize, edges: &[u8], letters: &[u8]) -> io::Result<()> {
    let mut out = [0u8; 68];
    lettered(rt, b"plain_line", n, edges, letters)?;
    let a = named::carbon::plain_line(n, edges, letters, &mut out);
    told(rt, b"named plain_line", a, &out)
}

// The forms that take carbon only: of carbon alone, and of other atoms. In the CAM before the last the numbering is not physical at 2; that comes behind the atom's.
fn carbon(rt: &impl Print) -> io::Result<()> {
    bits(rt, &[1, 2, 2, 3, 3, 4, 2, 5, 1, 6, 6, 7, 1, 8], b"CCCCCCCC")?;
    matrices(rt, &[1, 2, 2, 3, 2, 4, 3, 5, 1, 6, 6, 7], b"CCCCCCC")?;
    matrices(rt, &[1, 2, 2, 3, 2, 4, 3, 5, 1, 6, 6, 7], b"CCCCCON")?;
    cam(rt, 3, &[1, 3, 3, 2], b"CCO")?;
    cam(rt, 3, &[1, 3, 3, 2], b"CCC")?;
    plain(rt, 2, &[1, 2], b"CC")?;
    plain(rt, 2, &[1, 2], b"CO")
}

// Of methanol.
fn written(rt: &impl Print) -> io::Result<()> {
    let mut out = [0u8; 14];
    lettered(rt, b"write_line", 2, &[1, 2], b"CO")?;
    let a = named::text::write_line(2, &[1, 2], b"CO", &mut out);
    told(rt, b"named write_line", a, &out)
}

// A line, handed over with its line feed and shown without, and as many letters as it has digits.
fn read(rt: &impl Print, shown: &[u8], line: &[u8], n: usize) -> io::Result<()> {
    let mut out = [0u8; 64];
    let mut spelling = [0u8; 64];
    text(rt, b"named read_line of '")?;
    text(rt, shown)?;
    text(rt, b"'")?;
    let a = named::text::read_line(line, &mut out, &mut spelling);
    both(rt, a, &out, &spelling, n)
}

fn lines(rt: &impl Print) -> io::Result<()> {
    read(rt, b"2 10 OC 1 0 1", b"2 10 OC 1 0 1\n", 2)?;
    read(rt, b"2 10 CO 1 0 1", b"2 10 CO 1 0 1\n", 0)?;
    read(rt, b"6 210110 CNCCCC 5 1 0", b"6 210110 CNCCCC 5 1 0\n", 6)?;
    read(rt, b"6 211010 CCNCCC 5 1 0", b"6 211010 CCNCCC 5 1 0\n", 0)?;
    read(rt, b"3 004 COC 2 0 1", b"3 004 COC 2 0 1\n", 0)?;
    read(rt, b"3 002 CCO 2 0 1", b"3 002 CCO 2 0 1\n", 0)?;
    read(
        rt,
        b"2 10 OC 1 0 18446744073709551617",
        b"2 10 OC 1 0 18446744073709551617\n",
        0,
    )?;
    read(rt, b"6 220010", b"6 220010\n", 0)
}

// The digits of a named line by themselves are no plain line.
fn unnamed(rt: &impl Print) -> io::Result<()> {
    let mut out = [0u8; 6];
    text(rt, b"read_line of '6 210110'")?;
    let a = zurkhovel::text::read_line(1, b"6 210110\n", &mut out);
    answer(rt, a, &out)
}

// The letters of the first line, which has two, and of the third, which has one.
fn first_and_third(rt: &impl Print, spelling: &[u8; 192]) -> io::Result<()> {
    let said = [spelling[0], spelling[1], 32, spelling[128]];
    text(rt, &said)
}

// Three lines, the second of which is no centred code.
fn texts(rt: &impl Print) -> io::Result<()> {
    let mut records = [0u8; 192];
    let mut spelling = [0u8; 192];
    let mut numbers = [0u8; 3];
    let mut places = [0usize; 3];
    let p = named::text::read_text(
        b"2 10 OC 1 0 1\n2 10 CO 1 0 1\n1 0 N 0 1 0\n",
        &mut records,
        &mut spelling,
        &mut numbers,
        &mut places,
    );
    text(
        rt,
        b"named read_text of the lines '2 10 OC 1 0 1', '2 10 CO 1 0 1' and '1 0 N 0 1 0'",
    )?;
    progress(rt, p, &numbers, &places)?;
    text(rt, b"; letters ")?;
    first_and_third(rt, &spelling)?;
    text(rt, b"\n")
}

fn listing(rt: &impl Print) -> io::Result<()> {
    let mut out = [0u8; 64];
    let n = named::text::list(b"2 10 OC 1 0 1\n2 10 CO 1 0 1\n1 0 N 0 1 0\n", 0, &mut out);
    text(
        rt,
        b"named list of the lines '2 10 OC 1 0 1', '2 10 CO 1 0 1' and '1 0 N 0 1 0'",
    )?;
    piece(rt, 0, &out, n)
}

fn main(rt: HostRuntime) -> io::Result<()> {
    codes(&rt)?;
    lists(&rt)?;
    coded_of(&rt, &[1, 2, 2, 3, 3, 4, 4, 5, 5, 6], b"CNCCCC")?;
    centred_of(&rt, 2, &[1, 2], b"CO")?;
    two_lists(&rt)?;
    classes(&rt, 3, &[1, 2, 2, 3], b"COC")?;
    classes(&rt, 3, &[1, 2, 2, 3], b"CCO")?;
    carbon(&rt)?;
    written(&rt)?;
    lines(&rt)?;
    unnamed(&rt)?;
    texts(&rt)?;
    listing(&rt)
}
