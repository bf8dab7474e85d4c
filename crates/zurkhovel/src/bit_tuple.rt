// The bit-tuple: packed bytes, a whole number, a fraction.
ghost use Rattle.std.specs.Prelude.{◌≡◌, [], ◌≤◌, length};
ghost use Rattle.refusal.specs.document.Table.{Gives};
ghost use Rattle.refusal.specs.document.Outcome.{told};
ghost use Rattle.limits.specs.document.Limits.{size};
ghost use Rattle.zurkhovel.specs.Rooting.{Rooting, Readable, EdgesOf};
ghost use Rattle.refusal.specs.document.Reported.{answer, pairs, Reporting};
ghost use Rattle.zurkhovel.specs.document.Reported.{ReportedAtRoot};
ghost use Rattle.zurkhovel.specs.document.Bits.{Pack, Unpack, Whole, Unwhole, InFraction, Unfraction};
ghost use Rattle.zurkhovel.specs.document.InEdition.{edge_table};

use super::editions;
use limits::SIZE;
use refusal::{Refusal, Reported};

// The rooted code at a vertex of a skeleton of at most `most` vertices.
fn rooted(
    edition: usize,
    most: usize,
    n: usize,
    edges: &[u8],
    root: usize,
    code: &mut [u8],
) -> Result<usize, Refusal>
    requires { (most ≤ size) × (length code.old ≡ size) }
    ensures { Rooting edition most n edges.now root code.new result }
{
    editions::edges(edition, most, n, edges, root)?;
    Ok(form_coder::rooted(n, edges, root, code))
}

// A result at the start of the lent output, with row 15.
fn laid(res: &[u8], out: &mut [u8]) -> Result<usize, Refusal>
    ensures { Gives [] (λ c. c ≡ res.now) out.old out.new (told result) }
{
    refusal::fits(res.len(), out.len())?;
    Ok(copying::copy(res, out))
}

// The packed form of the rooted code at a vertex.
pub fn pack(
    edition: usize,
    n: usize,
    edges: &[u8],
    root: usize,
    out: &mut [u8],
) -> Result<Reported<usize>, Refusal>
    ensures { Reporting (Pack (edge_table edition) n edges.now root out.old out.new) (ReportedAtRoot n edges.now root) (told (answer result)) (pairs result) }
{
    let mut code = [0u8; SIZE];
    let pairs = rooted(edition, SIZE, n, edges, root, &mut code)?;
    let mut packed = [0u8; limits::PACKED];
    let m = bits::pack(&code[..n], &mut packed);
    let value = laid(&packed[..m], out)?;
    Ok(Reported { value, pairs })
}

// The whole number of the rooted code at a vertex.
pub fn whole(edition: usize, n: usize, edges: &[u8], root: usize) -> Result<Reported<u64>, Refusal>
    ensures { Reporting (Whole (edge_table edition) n edges.now root) (ReportedAtRoot n edges.now root) (told (answer result)) (pairs result) }
{
    let mut code = [0u8; SIZE];
    let pairs = rooted(edition, limits::WHOLE, n, edges, root, &mut code)?;
    Ok(Reported {
        value: bits::number_of(&code[..n]),
        pairs,
    })
}

// The fraction of the rooted code at a vertex.
pub fn fraction(
    edition: usize,
    n: usize,
    edges: &[u8],
    root: usize,
) -> Result<Reported<f64>, Refusal>
    ensures { Reporting (InFraction (edge_table edition) n edges.now root) (ReportedAtRoot n edges.now root) (told (answer result)) (pairs result) }
{
    let mut code = [0u8; SIZE];
    let pairs = rooted(edition, limits::FRACTION, n, edges, root, &mut code)?;
    Ok(Reported {
        value: fraction::fraction_of(&code[..n]),
        pairs,
    })
}

// The edges of the code that a form was read to; a refusal stays.
fn edges_of(read: Result<usize, Refusal>, digits: &[u8], out: &mut [u8]) -> Result<usize, Refusal>
    requires { Readable digits.now read }
    ensures { EdgesOf digits.now out.old out.new read result }
{
    let n = read?;
    super::codes::lay_edges(&digits[..n], out)
}

// The edges of the code in a packed code.
pub fn unpack(edition: usize, bytes: &[u8], out: &mut [u8]) -> Result<usize, Refusal>
    ensures { Unpack edition bytes.now out.old out.new (told result) }
{
    let mut digits = [0u8; SIZE];
    let read = editions::packed(edition, bytes, &mut digits);
    edges_of(read, &digits, out)
}

// The edges of the code in a whole number, with N beside it.
pub fn unwhole(edition: usize, n: usize, value: u64, out: &mut [u8]) -> Result<usize, Refusal>
    ensures { Unwhole edition n value out.old out.new (told result) }
{
    let mut digits = [0u8; SIZE];
    let read = editions::whole(edition, n, value, &mut digits);
    edges_of(read, &digits, out)
}

// The edges of the code in a fraction.
pub fn unfraction(edition: usize, x: f64, out: &mut [u8]) -> Result<usize, Refusal>
    ensures { Unfraction edition x out.old out.new (told result) }
{
    let mut digits = [0u8; SIZE];
    let read = editions::fraction(edition, x, &mut digits);
    edges_of(read, &digits, out)
}
