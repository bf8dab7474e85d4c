// Digit codes and edge lists.
ghost use Rattle.refusal.specs.document.Outcome.{told, told_of, unwritten};
ghost use Rattle.refusal.specs.document.Table.{Clear, gives};
ghost use Rattle.limits.specs.document.Limits.{size};
ghost use Rattle.zurkhovel.specs.document.InEdition.{edge_table};
ghost use Rattle.zurkhovel.specs.document.Codes.{CheckCode, DecodeCode, DecodeForm, CheckEdges, RootedCode, FormCode};
ghost use Rattle.zurkhovel.specs.Rooting.{EndsWhole, LaysEdges};
ghost use Rattle.zurkhovel.specs.document.Same.{SameSkeleton};
ghost use Rattle.form.specs.document.Form.{IsNTuple, IsCentred};
ghost use Rattle.form_coder.specs.document.Pairs.{CentredPairs, NTuplePairs};
ghost use Rattle.refusal.specs.document.Reported.{answer, pairs, Reporting};
ghost use Rattle.zurkhovel.specs.document.Reported.{ReportedAtRoot, OfBoth};

use super::editions;
use limits::SIZE;
use refusal::{ListRefusal, Refusal, Reported};

// Whether digits lent by themselves are a right rooted code.
pub fn check_code(edition: usize, code: &[u8]) -> Result<(), Refusal>
    ensures { CheckCode edition code.now (told (unwritten result)) }
{
    editions::code(edition, code)
}

// The edges of digits that are a right rooted code.
pub(crate) fn lay_edges(code: &[u8], out: &mut [u8]) -> Result<usize, Refusal>
    requires { EndsWhole code.now }
    ensures { LaysEdges code.now out.old out.new (told result) }
{
    let need = 2 * (code.len() - 1);
    refusal::fits(need, out.len())?;
    Ok(digit_code::write_edges(code, out))
}

// The edges (parent, child), for child 2 to N, of a right rooted code.
pub fn decode_code(edition: usize, code: &[u8], out: &mut [u8]) -> Result<usize, Refusal>
    ensures { DecodeCode edition code.now out.old out.new (told result) }
{
    editions::code(edition, code)?;
    lay_edges(code, out)
}

// Whether N, an edge list and a root are a skeleton and one of its vertices.
pub fn check_edges(edition: usize, n: usize, edges: &[u8], root: usize) -> Result<(), Refusal>
    ensures { CheckEdges edition n edges.now root (told (unwritten result)) }
{
    editions::edges(edition, SIZE, n, edges, root)
}

// The rooted code at a vertex.
pub fn rooted_code(
    edition: usize,
    n: usize,
    edges: &[u8],
    root: usize,
    out: &mut [u8],
) -> Result<Reported<usize>, Refusal>
    ensures { Reporting (RootedCode edition n edges.now root out.old out.new) (ReportedAtRoot n edges.now root) (told (answer result)) (pairs result) }
{
    editions::edges(edition, SIZE, n, edges, root)?;
    refusal::fits(n, out.len())?;
    let pairs = form_coder::rooted(n, edges, root, out);
    Ok(Reported { value: n, pairs })
}

// The N-tuple code.
pub fn n_tuple_code(
    edition: usize,
    n: usize,
    edges: &[u8],
    out: &mut [u8],
) -> Result<Reported<usize>, Refusal>
    ensures { Reporting (FormCode edition IsNTuple n edges.now out.old out.new) (NTuplePairs n edges.now) (told (answer result)) (pairs result) }
{
    editions::edges(edition, SIZE, n, edges, 1)?;
    refusal::fits(n, out.len())?;
    let pairs = form_coder::n_tuple(n, edges, out);
    Ok(Reported { value: n, pairs })
}

// The centred code.
pub fn centred_code(
    edition: usize,
    n: usize,
    edges: &[u8],
    out: &mut [u8],
) -> Result<Reported<usize>, Refusal>
    ensures { Reporting (FormCode edition IsCentred n edges.now out.old out.new) (CentredPairs n edges.now) (told (answer result)) (pairs result) }
{
    editions::edges(edition, SIZE, n, edges, 1)?;
    refusal::fits(n, out.len())?;
    let pairs = form_coder::centred(n, edges, out);
    Ok(Reported { value: n, pairs })
}

// The edges (parent, child), for child 2 to N, of a centred code.
pub fn decode_centred(edition: usize, code: &[u8], out: &mut [u8]) -> Result<usize, Refusal>
    ensures { DecodeForm edition IsCentred code.now out.old out.new (told result) }
{
    editions::centred(edition, code)?;
    lay_edges(code, out)
}

// The edges (parent, child), for child 2 to N, of an N-tuple code.
pub fn decode_n_tuple(edition: usize, code: &[u8], out: &mut [u8]) -> Result<usize, Refusal>
    ensures { DecodeForm edition IsNTuple code.now out.old out.new (told result) }
{
    editions::n_tuple(edition, code)?;
    lay_edges(code, out)
}

// Whether two accepted edge lists of an edition are the same skeleton. Lists of different sizes are not coded.
fn judge(edition: usize, n1: usize, edges1: &[u8], n2: usize, edges2: &[u8]) -> Reported<bool>
    requires clear { Clear (edge_table edition size n1 edges1.now 1) }
    requires clear_2 { Clear (edge_table edition size n2 edges2.now 1) }
    ensures { Reporting (SameSkeleton edition n1 edges1.now n2 edges2.now) (OfBoth n1 edges1.now n2 edges2.now) (gives result.value) result.pairs }
{
    if n1 != n2 {
        return Reported {
            value: false,
            pairs: 0,
        };
    }
    let mut a = [0u8; SIZE];
    let mut b = [0u8; SIZE];
    let first = form_coder::centred(n1, edges1, &mut a);
    let second = form_coder::centred(n2, edges2, &mut b);
    Reported {
        value: a[..n1] == b[..n2],
        pairs: first + second,
    }
}

// Whether two edge lists are the same skeleton: whether their centred codes are equal.
pub fn same_skeleton(
    edition: usize,
    n1: usize,
    edges1: &[u8],
    n2: usize,
    edges2: &[u8],
) -> Result<Reported<bool>, ListRefusal>
    ensures { Reporting (SameSkeleton edition n1 edges1.now n2 edges2.now) (OfBoth n1 edges1.now n2 edges2.now) (told_of (answer result)) (pairs result) }
{
    editions::both(edition, n1, edges1, n2, edges2)?;
    Ok(judge(edition, n1, edges1, n2, edges2))
}
