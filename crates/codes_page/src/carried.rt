// 3-methylhexane, in the numbering of 001's example, in every form.
use shown::{answer, given, rooted, sized};
use std::io;

// Its rooted code at a vertex.
fn coded_at(rt: &impl Print, edges: &[u8], v: usize) -> io::Result<()> {
    let mut out = [0u8; 7];
    rooted(rt, b"rooted_code", 7, edges, v)?;
    let a = zurkhovel::codes::rooted_code(1, 7, edges, v, &mut out);
    answer(rt, a, &out)
}

// The N-tuple code, the centred code, and the numbering by it.
fn coded(rt: &impl Print, edges: &[u8]) -> io::Result<()> {
    let mut out = [0u8; 7];
    let mut pairs = [0u8; 12];
    sized(rt, b"n_tuple_code", 7, edges)?;
    let a = zurkhovel::codes::n_tuple_code(1, 7, edges, &mut out);
    answer(rt, a, &out)?;
    sized(rt, b"centred_code", 7, edges)?;
    let b = zurkhovel::codes::centred_code(1, 7, edges, &mut out);
    answer(rt, b, &out)?;
    given(rt, b"decode_centred", &out)?;
    let c = zurkhovel::codes::decode_centred(1, &out, &mut pairs);
    answer(rt, c, &pairs)
}

// The three bit forms, at the centre.
fn bits(rt: &impl Print, edges: &[u8]) -> io::Result<()> {
    let mut out = [0u8; 2];
    rooted(rt, b"pack", 7, edges, 2)?;
    let a = zurkhovel::bit_tuple::pack(1, 7, edges, 2, &mut out);
    answer(rt, a, &out)?;
    rooted(rt, b"whole", 7, edges, 2)?;
    answer(rt, zurkhovel::bit_tuple::whole(1, 7, edges, 2), &[])?;
    rooted(rt, b"fraction", 7, edges, 2)?;
    answer(rt, zurkhovel::bit_tuple::fraction(1, 7, edges, 2), &[])
}

// CAM, 0A and A0, in its own numbering and by code.
fn adjacency(rt: &impl Print, edges: &[u8]) -> io::Result<()> {
    let mut out = [0u8; 6];
    sized(rt, b"cam", 7, edges)?;
    let a = zurkhovel::matrix::cam(1, 7, edges, &mut out);
    answer(rt, a, &out)?;
    sized(rt, b"cam_by_code", 7, edges)?;
    let b = zurkhovel::matrix::cam_by_code(1, 7, edges, &mut out);
    answer(rt, b, &out)?;
    sized(rt, b"zero_a", 7, edges)?;
    answer(rt, zurkhovel::matrix::zero_a(1, 7, edges), &[])?;
    sized(rt, b"zero_a_by_code", 7, edges)?;
    answer(rt, zurkhovel::matrix::zero_a_by_code(1, 7, edges), &[])?;
    sized(rt, b"a_zero", 7, edges)?;
    answer(rt, zurkhovel::matrix::a_zero(1, 7, edges), &[])?;
    sized(rt, b"a_zero_by_code", 7, edges)?;
    answer(rt, zurkhovel::matrix::a_zero_by_code(1, 7, edges), &[])
}

fn same(rt: &impl Print, edges: &[u8], others: &[u8]) -> io::Result<()> {
    sized(rt, b"same_skeleton", 7, edges)?;
    sized(rt, b",", 7, others)?;
    let r = zurkhovel::codes::same_skeleton(1, 7, edges, 7, others);
    answer(rt, r, &[])
}

// The classes of its vertices, of those of 2-methylpentane, and of butane, which turns over.
fn alike(rt: &impl Print, edges: &[u8]) -> io::Result<()> {
    let mut out = [0u8; 7];
    sized(rt, b"equal_vertices", 7, edges)?;
    let a = zurkhovel::alike::equal_vertices(1, 7, edges, &mut out);
    answer(rt, a, &out)?;
    sized(rt, b"equal_vertices", 6, &[1, 2, 2, 3, 3, 4, 4, 5, 2, 6])?;
    let b = zurkhovel::alike::equal_vertices(1, 6, &[1, 2, 2, 3, 3, 4, 4, 5, 2, 6], &mut out);
    answer(rt, b, &out)?;
    sized(rt, b"equal_vertices", 4, &[1, 2, 2, 3, 3, 4])?;
    let c = zurkhovel::alike::equal_vertices(1, 4, &[1, 2, 2, 3, 3, 4], &mut out);
    answer(rt, c, &out)
}

fn line(rt: &impl Print, edges: &[u8]) -> io::Result<()> {
    let mut out = [0u8; 10];
    sized(rt, b"write_line", 7, edges)?;
    let a = zurkhovel::text::write_line(1, 7, edges, &mut out);
    answer(rt, a, &out)
}

// Behind `same`: the numbering along the chain of six, and 2-methylhexane.
fn all(rt: &impl Print, edges: &[u8]) -> io::Result<()> {
    for v in 1..=7 {
        coded_at(rt, edges, v)?;
    }
    coded(rt, edges)?;
    bits(rt, edges)?;
    adjacency(rt, edges)?;
    same(rt, edges, &[1, 2, 2, 3, 3, 4, 4, 5, 5, 6, 3, 7])?;
    same(rt, edges, &[1, 2, 2, 3, 3, 4, 4, 5, 5, 6, 2, 7])?;
    alike(rt, edges)?;
    line(rt, edges)
}

pub(crate) fn forms(rt: &impl Print) -> io::Result<()> {
    all(rt, &[1, 2, 2, 3, 2, 4, 3, 5, 1, 6, 6, 7])
}
