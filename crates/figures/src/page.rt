// The figures of document 01.
use shown::{answer, given, numbered, text};
use std::io;

// The edges of a digit code.
fn decode(rt: &impl Print, code: &[u8]) -> io::Result<()> {
    let mut out = [0u8; 126];
    given(rt, b"decode_code", code)?;
    let a = zurkhovel::codes::decode_code(1, code, &mut out);
    answer(rt, a, &out)
}

// Right codes, and the refused ones.
fn codes(rt: &impl Print) -> io::Result<()> {
    decode(rt, &[0])?;
    decode(rt, &[1, 0])?;
    decode(rt, &[2, 0, 0])?;
    decode(rt, &[2, 2, 0, 0, 1, 0])?;
    decode(rt, &[3, 1, 1, 0, 1, 0, 0])?;
    decode(rt, &[3, 2, 1, 0, 0, 1, 0, 0])?;
    decode(rt, &[1, 2, 0, 0])?;
    decode(rt, &[2, 0, 1, 0])?;
    decode(rt, &[0, 0])?;
    decode(rt, &[2, 0])?;
    decode(rt, &[5, 0])?;
    decode(rt, &[1, 4, 0, 0, 0, 0])?;
    decode(rt, &[0, 2, 0])?;
    decode(rt, &[0, 0, 7])
}

// A right rooted code that is not a centred one.
fn not_centred(rt: &impl Print, code: &[u8]) -> io::Result<()> {
    let mut out = [0u8; 126];
    given(rt, b"decode_centred", code)?;
    let a = zurkhovel::codes::decode_centred(1, code, &mut out);
    answer(rt, a, &out)
}

// A path of 64 vertices passes, one of 65 is refused.
fn sizes(rt: &impl Print) -> io::Result<()> {
    let mut code = [1u8; 65];
    code[0] = 2;
    code[62] = 0;
    code[63] = 0;
    text(rt, b"check_code of a path of 64")?;
    answer(rt, zurkhovel::codes::check_code(1, &code[..64]), &[])?;
    code[62] = 1;
    code[64] = 0;
    text(rt, b"check_code of a path of 65")?;
    answer(rt, zurkhovel::codes::check_code(1, &code), &[])
}

// A named skeleton, by its edges: its centred code and its N-tuple code, and the whole number of its code at a vertex.
fn skeleton(rt: &impl Print, name: &[u8], n: usize, edges: &[u8], root: usize) -> io::Result<()> {
    let mut out = [0u8; 64];
    text(rt, name)?;
    text(rt, b": centred_code")?;
    let centred = zurkhovel::codes::centred_code(1, n, edges, &mut out);
    answer(rt, centred, &out)?;
    text(rt, name)?;
    text(rt, b": n_tuple_code")?;
    let tuple = zurkhovel::codes::n_tuple_code(1, n, edges, &mut out);
    answer(rt, tuple, &out)?;
    text(rt, name)?;
    text(rt, b": whole")?;
    answer(rt, zurkhovel::bit_tuple::whole(1, n, edges, root), &[])
}

fn skeletons(rt: &impl Print) -> io::Result<()> {
    skeleton(rt, b"one vertex", 1, &[], 1)?;
    skeleton(rt, b"two", 2, &[1, 2], 1)?;
    skeleton(rt, b"propane", 3, &[1, 2, 2, 3], 2)?;
    skeleton(rt, b"butane", 4, &[1, 2, 2, 3, 3, 4], 2)?;
    skeleton(rt, b"isobutane", 4, &[1, 2, 2, 3, 2, 4], 2)?;
    skeleton(rt, b"neopentane", 5, &[1, 2, 2, 3, 2, 4, 2, 5], 2)?;
    skeleton(
        rt,
        b"2-methylpentane",
        6,
        &[1, 2, 2, 3, 3, 4, 4, 5, 2, 6],
        3,
    )?;
    skeleton(
        rt,
        b"3-methylhexane",
        7,
        &[1, 2, 2, 3, 3, 4, 4, 5, 5, 6, 3, 7],
        3,
    )?;
    skeleton(
        rt,
        b"002's example",
        8,
        &[1, 2, 2, 3, 3, 4, 2, 5, 1, 6, 6, 7, 1, 8],
        1,
    )
}

// 001's skeleton in its own numbering and by code.
fn adjacency(rt: &impl Print, edges: &[u8]) -> io::Result<()> {
    let mut out = [0u8; 63];
    text(rt, b"001's example: cam")?;
    let own = zurkhovel::matrix::cam(1, 7, edges, &mut out);
    answer(rt, own, &out)?;
    text(rt, b"001's example: zero_a")?;
    answer(rt, zurkhovel::matrix::zero_a(1, 7, edges), &[])?;
    text(rt, b"001's example: a_zero")?;
    answer(rt, zurkhovel::matrix::a_zero(1, 7, edges), &[])?;
    text(rt, b"001's example: cam_by_code")?;
    let by_code = zurkhovel::matrix::cam_by_code(1, 7, edges, &mut out);
    answer(rt, by_code, &out)?;
    text(rt, b"001's example: zero_a_by_code")?;
    answer(rt, zurkhovel::matrix::zero_a_by_code(1, 7, edges), &[])
}

// A fraction read.
fn read_fraction(rt: &impl Print, name: &[u8], x: f64) -> io::Result<()> {
    let mut out = [0u8; 126];
    text(rt, b"unfraction ")?;
    text(rt, name)?;
    let a = zurkhovel::bit_tuple::unfraction(1, x, &mut out);
    answer(rt, a, &out)
}

fn fractions(rt: &impl Print) -> io::Result<()> {
    read_fraction(rt, b"0.926025390625", 0.926025390625)?;
    read_fraction(rt, b"0.5", 0.5)?;
    read_fraction(rt, b"0.25", 0.25)?;
    read_fraction(rt, b"2^-60", 8.673617379884035e-19)?;
    read_fraction(rt, b"1.0", 1.0)
}

// Whether a path, by its code at an end, has a fraction; its edges are lent.
fn path_fraction(rt: &impl Print, code: &[u8], edges: &mut [u8]) -> io::Result<()> {
    print!(rt; "fraction of a path of {}", code.len())?;
    let decoded = zurkhovel::codes::decode_code(1, code, edges);
    if decoded.is_err() {
        return answer(rt, decoded, &[]);
    }
    let r = zurkhovel::bit_tuple::fraction(1, code.len(), edges, 1);
    if r.is_ok() {
        return text(rt, b" = Exact\n");
    }
    answer(rt, r, &[])
}

// The forms' own limits: a path of 27 vertices has a fraction and one of 28 has not; 0A ends at 21 and A0 at 11.
fn limits(rt: &impl Print) -> io::Result<()> {
    let mut shorter = [1u8; 27];
    let mut longer = [1u8; 28];
    let mut edges = [0u8; 52];
    let mut more = [0u8; 54];
    let mut out = [0u8; 126];
    shorter[26] = 0;
    path_fraction(rt, &shorter, &mut edges)?;
    longer[27] = 0;
    path_fraction(rt, &longer, &mut more)?;
    numbered(rt, b"decode_zero_a", 21, 2432902008176639999)?;
    let a = zurkhovel::matrix::decode_zero_a(1, 21, 2432902008176639999, &mut out);
    answer(rt, a, &out)?;
    numbered(rt, b"decode_zero_a", 22, 0)?;
    let b = zurkhovel::matrix::decode_zero_a(1, 22, 0, &mut out);
    answer(rt, b, &out)?;
    numbered(rt, b"decode_a_zero", 11, 29573023153783296)?;
    let c = zurkhovel::matrix::decode_a_zero(1, 11, 29573023153783296, &mut out);
    answer(rt, c, &out)?;
    numbered(rt, b"decode_a_zero", 12, 29573023153783296)?;
    let d = zurkhovel::matrix::decode_a_zero(1, 12, 29573023153783296, &mut out);
    answer(rt, d, &out)?;
    numbered(rt, b"unwhole", 3, 16)?;
    let e = zurkhovel::bit_tuple::unwhole(1, 3, 16, &mut out);
    answer(rt, e, &out)
}

pub(crate) fn figures(rt: &impl Print) -> io::Result<()> {
    codes(rt)?;
    not_centred(rt, &[1, 2, 0, 0])?;
    sizes(rt)?;
    skeletons(rt)?;
    adjacency(rt, &[1, 2, 2, 3, 2, 4, 3, 5, 1, 6, 6, 7])?;
    fractions(rt)?;
    limits(rt)
}
