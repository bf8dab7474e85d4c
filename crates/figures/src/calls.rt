// One worked example for each public call in edition 1, as docs/CALLS.md shows it.
use shown::report::{piece, progress, told};
use shown::{answer, given, numbered, rooted, sized, text};
use std::io;

fn digit_codes(rt: &impl Print) -> io::Result<()> {
    let mut out = [0u8; 126];
    given(rt, b"check_code", &[2, 0, 1, 0])?;
    answer(rt, zurkhovel::codes::check_code(1, &[2, 0, 1, 0]), &[])?;
    given(rt, b"decode_code", &[1, 2, 0, 0])?;
    let a = zurkhovel::codes::decode_code(1, &[1, 2, 0, 0], &mut out);
    answer(rt, a, &out)?;
    given(rt, b"decode_n_tuple", &[3, 1, 1, 0, 0, 0])?;
    let b = zurkhovel::codes::decode_n_tuple(1, &[3, 1, 1, 0, 0, 0], &mut out);
    answer(rt, b, &out)?;
    given(rt, b"decode_centred", &[2, 2, 0, 0, 1, 0])?;
    let c = zurkhovel::codes::decode_centred(1, &[2, 2, 0, 0, 1, 0], &mut out);
    answer(rt, c, &out)?;
    given(rt, b"decode_centred", &[3, 1, 1, 0, 0, 0])?;
    let d = zurkhovel::codes::decode_centred(1, &[3, 1, 1, 0, 0, 0], &mut out);
    answer(rt, d, &out)
}

// Of 2-methylpentane; the classes also of butane and of neopentane.
fn edge_codes(rt: &impl Print, edges: &[u8]) -> io::Result<()> {
    let mut out = [0u8; 64];
    rooted(rt, b"check_edges", 3, &[1, 2, 1, 2], 1)?;
    answer(
        rt,
        zurkhovel::codes::check_edges(1, 3, &[1, 2, 1, 2], 1),
        &[],
    )?;
    rooted(rt, b"rooted_code", 6, edges, 1)?;
    let a = zurkhovel::codes::rooted_code(1, 6, edges, 1, &mut out);
    told(rt, b"rooted_code", a, &out)?;
    sized(rt, b"n_tuple_code", 6, edges)?;
    let b = zurkhovel::codes::n_tuple_code(1, 6, edges, &mut out);
    told(rt, b"n_tuple_code", b, &out)?;
    sized(rt, b"centred_code", 6, edges)?;
    let c = zurkhovel::codes::centred_code(1, 6, edges, &mut out);
    told(rt, b"centred_code", c, &out)?;
    sized(rt, b"equal_vertices", 6, edges)?;
    let d = zurkhovel::alike::equal_vertices(1, 6, edges, &mut out);
    told(rt, b"equal_vertices", d, &out)?;
    sized(rt, b"equal_vertices", 4, &[1, 2, 2, 3, 3, 4])?;
    let e = zurkhovel::alike::equal_vertices(1, 4, &[1, 2, 2, 3, 3, 4], &mut out);
    told(rt, b"equal_vertices", e, &out)?;
    sized(rt, b"equal_vertices", 5, &[1, 2, 2, 3, 2, 4, 2, 5])?;
    let f = zurkhovel::alike::equal_vertices(1, 5, &[1, 2, 2, 3, 2, 4, 2, 5], &mut out);
    told(rt, b"equal_vertices", f, &out)
}

pub(crate) fn same_in(
    rt: &impl Print,
    edition: usize,
    n1: usize,
    edges1: &[u8],
    n2: usize,
    edges2: &[u8],
) -> io::Result<()> {
    sized(rt, b"same_skeleton", n1, edges1)?;
    sized(rt, b",", n2, edges2)?;
    let r = zurkhovel::codes::same_skeleton(edition, n1, edges1, n2, edges2);
    told(rt, b"same_skeleton", r, &[])
}

fn handed(rt: &impl Print, edges1: &[u8], edges2: &[u8]) -> io::Result<()> {
    let mut out = [0u8; 64];
    sized(rt, b"renumbering", 4, edges1)?;
    sized(rt, b",", 4, edges2)?;
    let r = zurkhovel::maps::renumbering(1, 4, edges1, 4, edges2, &mut out);
    told(rt, b"renumbering", r, &out)
}

fn judged(rt: &impl Print, edges1: &[u8], edges2: &[u8], map: &[u8]) -> io::Result<()> {
    sized(rt, b"check_renumbering", 4, edges1)?;
    sized(rt, b",", 4, edges2)?;
    given(rt, b",", map)?;
    let r = zurkhovel::maps::check_renumbering(1, 4, edges1, 4, edges2, map);
    answer(rt, r, &[])
}

// Butane twice, and isobutane.
fn maps(rt: &impl Print, edges1: &[u8], edges2: &[u8]) -> io::Result<()> {
    handed(rt, edges1, edges2)?;
    handed(rt, edges1, &[1, 2, 1, 3, 1, 4])?;
    judged(rt, edges1, edges2, &[3, 1, 4, 2])?;
    judged(rt, edges1, edges2, &[3, 1, 4, 3])?;
    judged(rt, edges1, edges2, &[1, 3, 4, 2])
}

// Of 002's example.
fn bits_of(rt: &impl Print, edges: &[u8]) -> io::Result<()> {
    let mut out = [0u8; 16];
    rooted(rt, b"pack", 8, edges, 1)?;
    let a = zurkhovel::bit_tuple::pack(1, 8, edges, 1, &mut out);
    told(rt, b"pack", a, &out)?;
    rooted(rt, b"whole", 8, edges, 1)?;
    let b = zurkhovel::bit_tuple::whole(1, 8, edges, 1);
    told(rt, b"whole", b, &[])?;
    rooted(rt, b"fraction", 8, edges, 1)?;
    let c = zurkhovel::bit_tuple::fraction(1, 8, edges, 1);
    told(rt, b"fraction", c, &[])
}

fn bits_read(rt: &impl Print) -> io::Result<()> {
    let mut out = [0u8; 126];
    given(rt, b"unpack", &[237, 16])?;
    let a = zurkhovel::bit_tuple::unpack(1, &[237, 16], &mut out);
    answer(rt, a, &out)?;
    numbered(rt, b"unwhole", 8, 30344)?;
    let b = zurkhovel::bit_tuple::unwhole(1, 8, 30344, &mut out);
    answer(rt, b, &out)?;
    text(rt, b"unfraction 0.5")?;
    let c = zurkhovel::bit_tuple::unfraction(1, 0.5, &mut out);
    answer(rt, c, &out)
}

// Of 001's example.
fn matrices(rt: &impl Print, edges: &[u8]) -> io::Result<()> {
    let mut out = [0u8; 63];
    sized(rt, b"cam", 7, edges)?;
    let a = zurkhovel::matrix::cam(1, 7, edges, &mut out);
    answer(rt, a, &out)?;
    sized(rt, b"zero_a", 7, edges)?;
    answer(rt, zurkhovel::matrix::zero_a(1, 7, edges), &[])?;
    sized(rt, b"a_zero", 7, edges)?;
    answer(rt, zurkhovel::matrix::a_zero(1, 7, edges), &[])?;
    sized(rt, b"cam_by_code", 7, edges)?;
    let b = zurkhovel::matrix::cam_by_code(1, 7, edges, &mut out);
    told(rt, b"cam_by_code", b, &out)?;
    sized(rt, b"zero_a_by_code", 7, edges)?;
    let c = zurkhovel::matrix::zero_a_by_code(1, 7, edges);
    told(rt, b"zero_a_by_code", c, &[])?;
    sized(rt, b"a_zero_by_code", 7, edges)?;
    let d = zurkhovel::matrix::a_zero_by_code(1, 7, edges);
    told(rt, b"a_zero_by_code", d, &[])
}

fn matrices_read(rt: &impl Print) -> io::Result<()> {
    let mut out = [0u8; 126];
    sized(rt, b"decode_cam", 7, &[1, 2, 2, 3, 1, 6])?;
    let a = zurkhovel::matrix::decode_cam(1, 7, &[1, 2, 2, 3, 1, 6], &mut out);
    answer(rt, a, &out)?;
    numbered(rt, b"decode_zero_a", 7, 545)?;
    let b = zurkhovel::matrix::decode_zero_a(1, 7, 545, &mut out);
    answer(rt, b, &out)?;
    numbered(rt, b"decode_a_zero", 7, 1646688)?;
    let c = zurkhovel::matrix::decode_a_zero(1, 7, 1646688, &mut out);
    answer(rt, c, &out)
}

// Of 2-methylpentane.
fn line(rt: &impl Print, edges: &[u8]) -> io::Result<()> {
    let mut out = [0u8; 68];
    sized(rt, b"write_line", 6, edges)?;
    let a = zurkhovel::text::write_line(1, 6, edges, &mut out);
    told(rt, b"write_line", a, &out)?;
    given(rt, b"read_line", b"6 220010\n")?;
    let b = zurkhovel::text::read_line(1, b"6 220010\n", &mut out);
    answer(rt, b, &out)
}

// Three lines, the second of which is no centred code.
fn lines(rt: &impl Print) -> io::Result<()> {
    let mut records = [0u8; 192];
    let mut numbers = [0u8; 3];
    let mut places = [0usize; 3];
    let p = zurkhovel::text::read_text(
        1,
        b"6 220010\n6 311000\n1 0\n",
        &mut records,
        &mut numbers,
        &mut places,
    );
    text(
        rt,
        b"read_text of the lines '6 220010', '6 311000' and '1 0'",
    )?;
    progress(rt, p, &numbers, &places)?;
    text(rt, b"\n")?;
    let t = zurkhovel::text::count(&numbers);
    given(rt, b"count", &numbers)?;
    println!(rt; " = read {}, refused {}", t.read, t.refused)
}

// The listing of the same three lines, from a byte on.
fn listing(rt: &impl Print, from: usize, out: &mut [u8]) -> io::Result<()> {
    let n = zurkhovel::text::list(b"6 220010\n6 311000\n1 0\n", from, out);
    text(rt, b"list of the lines '6 220010', '6 311000' and '1 0'")?;
    piece(rt, from, out, n)
}

fn listings(rt: &impl Print) -> io::Result<()> {
    let mut whole = [0u8; 64];
    let mut piece = [0u8; 8];
    listing(rt, 0, &mut whole)?;
    listing(rt, 19, &mut piece)
}

pub(crate) fn examples(rt: &impl Print) -> io::Result<()> {
    digit_codes(rt)?;
    edge_codes(rt, &[1, 2, 2, 3, 3, 4, 4, 5, 2, 6])?;
    same_in(rt, 1, 4, &[1, 2, 2, 3, 3, 4], 4, &[1, 4, 4, 2, 2, 3])?;
    same_in(rt, 1, 4, &[1, 2, 2, 3, 3, 4], 3, &[1, 2, 1, 2])?;
    same_in(rt, 1, 4, &[1, 2, 2, 3, 3, 4], 3, &[1, 2, 2, 3])?;
    maps(rt, &[1, 2, 2, 3, 3, 4], &[3, 1, 1, 4, 4, 2])?;
    bits_of(rt, &[1, 2, 2, 3, 3, 4, 2, 5, 1, 6, 6, 7, 1, 8])?;
    bits_read(rt)?;
    matrices(rt, &[1, 2, 2, 3, 2, 4, 3, 5, 1, 6, 6, 7])?;
    matrices_read(rt)?;
    line(rt, &[1, 2, 2, 3, 3, 4, 4, 5, 2, 6])?;
    lines(rt)?;
    listings(rt)
}
