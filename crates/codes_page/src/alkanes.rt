// Every alkane of up to seven carbons, by its edge list. Vertices are numbered along the chain that the name is made from, and then along each side chain.
use super::written;
use refusal::{Refusal, Reported};
use shown::text;
use std::io;

// How many edges a vertex has.
fn degree(edges: &[u8], v: u8) -> usize {
    edges.iter().filter(|end| **end == v).count()
}

// A carbon and its hydrogens.
fn carbon(rt: &impl Print, edges: &[u8], v: u8) -> io::Result<()> {
    match degree(edges, v) {
        0 => text(rt, b"CH4"),
        1 => text(rt, b"CH3"),
        2 => text(rt, b"CH2"),
        3 => text(rt, b"CH"),
        _ => text(rt, b"C"),
    }
}

// A side chain from its first carbon on.
fn side(rt: &impl Print, edges: &[u8], first: u8) -> io::Result<()> {
    let mut at = first;
    carbon(rt, edges, at)?;
    for edge in edges.chunks_exact(2) {
        if edge[0] == at {
            at = edge[1];
            carbon(rt, edges, at)?;
        }
    }
    Ok(())
}

fn bracketed(rt: &impl Print, edges: &[u8], first: u8) -> io::Result<()> {
    text(rt, b"(")?;
    side(rt, edges, first)?;
    text(rt, b")")
}

// The side chains at a vertex of the chain, which is numbered up to `chain`.
fn sides(rt: &impl Print, edges: &[u8], v: u8, chain: u8) -> io::Result<()> {
    for edge in edges.chunks_exact(2) {
        if edge[0] == v && chain < edge[1] {
            bracketed(rt, edges, edge[1])?;
        }
    }
    Ok(())
}

// The condensed formula.
fn formula(rt: &impl Print, edges: &[u8], chain: u8) -> io::Result<()> {
    for v in 1..=chain {
        carbon(rt, edges, v)?;
        sides(rt, edges, v, chain)?;
    }
    Ok(())
}

// The packed form at vertex 1 of the edge list in the first k bytes.
fn packed(rt: &impl Print, n: usize, edges: &[u8], k: usize) -> io::Result<()> {
    let mut out = [0u8; 2];
    let first = edges.get(..k).unwrap_or(&[]);
    if let Ok(r) = zurkhovel::bit_tuple::pack(1, n, first, 1, &mut out) {
        written::bytes(rt, &out, r.value)?;
    }
    Ok(())
}

// The packed form of the centred code in the first n bytes.
fn packed_code(rt: &impl Print, code: &[u8], n: usize) -> io::Result<()> {
    let mut edges = [0u8; 12];
    let first = code.get(..n).unwrap_or(&[]);
    if let Ok(k) = zurkhovel::codes::decode_centred(1, first, &mut edges) {
        packed(rt, n, &edges, k)?;
    }
    Ok(())
}

// The digits of a code that is given.
fn code(rt: &impl Print, given: Result<Reported<usize>, Refusal>, digits: &[u8]) -> io::Result<()> {
    if let Ok(r) = given {
        written::digits(rt, digits, r.value)?;
    }
    Ok(())
}

// A row of the table.
fn row(rt: &impl Print, name: &[u8], n: usize, edges: &[u8], chain: u8) -> io::Result<()> {
    let mut centred = [0u8; 7];
    let mut tuple = [0u8; 7];
    let by_centre = zurkhovel::codes::centred_code(1, n, edges, &mut centred);
    let widest = zurkhovel::codes::n_tuple_code(1, n, edges, &mut tuple);
    text(rt, b"| ")?;
    text(rt, name)?;
    text(rt, b" | ")?;
    formula(rt, edges, chain)?;
    text(rt, b" | ")?;
    code(rt, by_centre, &centred)?;
    text(rt, b" | ")?;
    code(rt, widest, &tuple)?;
    text(rt, b" |")?;
    packed_code(rt, &centred, n)?;
    text(rt, b" |\n")
}

fn up_to_four(rt: &impl Print) -> io::Result<()> {
    row(rt, b"methane", 1, &[], 1)?;
    row(rt, b"ethane", 2, &[1, 2], 2)?;
    row(rt, b"propane", 3, &[1, 2, 2, 3], 3)?;
    row(rt, b"butane", 4, &[1, 2, 2, 3, 3, 4], 4)?;
    row(
        rt,
        b"2-methylpropane (isobutane)",
        4,
        &[1, 2, 2, 3, 2, 4],
        3,
    )
}

fn of_five(rt: &impl Print) -> io::Result<()> {
    row(rt, b"pentane", 5, &[1, 2, 2, 3, 3, 4, 4, 5], 5)?;
    row(rt, b"2-methylbutane", 5, &[1, 2, 2, 3, 3, 4, 2, 5], 4)?;
    row(
        rt,
        b"2,2-dimethylpropane (neopentane)",
        5,
        &[1, 2, 2, 3, 2, 4, 2, 5],
        3,
    )
}

fn of_six(rt: &impl Print) -> io::Result<()> {
    row(rt, b"hexane", 6, &[1, 2, 2, 3, 3, 4, 4, 5, 5, 6], 6)?;
    row(
        rt,
        b"2-methylpentane",
        6,
        &[1, 2, 2, 3, 3, 4, 4, 5, 2, 6],
        5,
    )?;
    row(
        rt,
        b"3-methylpentane",
        6,
        &[1, 2, 2, 3, 3, 4, 4, 5, 3, 6],
        5,
    )?;
    row(
        rt,
        b"2,2-dimethylbutane",
        6,
        &[1, 2, 2, 3, 3, 4, 2, 5, 2, 6],
        4,
    )?;
    row(
        rt,
        b"2,3-dimethylbutane",
        6,
        &[1, 2, 2, 3, 3, 4, 2, 5, 3, 6],
        4,
    )
}

fn of_seven(rt: &impl Print) -> io::Result<()> {
    row(rt, b"heptane", 7, &[1, 2, 2, 3, 3, 4, 4, 5, 5, 6, 6, 7], 7)?;
    row(
        rt,
        b"2-methylhexane",
        7,
        &[1, 2, 2, 3, 3, 4, 4, 5, 5, 6, 2, 7],
        6,
    )?;
    row(
        rt,
        b"3-methylhexane",
        7,
        &[1, 2, 2, 3, 3, 4, 4, 5, 5, 6, 3, 7],
        6,
    )?;
    row(
        rt,
        b"2,2-dimethylpentane",
        7,
        &[1, 2, 2, 3, 3, 4, 4, 5, 2, 6, 2, 7],
        5,
    )?;
    row(
        rt,
        b"2,3-dimethylpentane",
        7,
        &[1, 2, 2, 3, 3, 4, 4, 5, 2, 6, 3, 7],
        5,
    )
}

fn of_seven_more(rt: &impl Print) -> io::Result<()> {
    row(
        rt,
        b"2,4-dimethylpentane",
        7,
        &[1, 2, 2, 3, 3, 4, 4, 5, 2, 6, 4, 7],
        5,
    )?;
    row(
        rt,
        b"3,3-dimethylpentane",
        7,
        &[1, 2, 2, 3, 3, 4, 4, 5, 3, 6, 3, 7],
        5,
    )?;
    row(
        rt,
        b"3-ethylpentane",
        7,
        &[1, 2, 2, 3, 3, 4, 4, 5, 3, 6, 6, 7],
        5,
    )?;
    row(
        rt,
        b"2,2,3-trimethylbutane",
        7,
        &[1, 2, 2, 3, 3, 4, 2, 5, 2, 6, 3, 7],
        4,
    )
}

pub(crate) fn rows(rt: &impl Print) -> io::Result<()> {
    up_to_four(rt)?;
    of_five(rt)?;
    of_six(rt)?;
    of_seven(rt)?;
    of_seven_more(rt)
}
