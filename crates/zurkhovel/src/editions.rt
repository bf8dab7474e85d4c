// The checks of the calls in an edition: 22 comes first, and then what is checked for the limit of the edition. None of them is public.
ghost use Rattle.std.specs.Prelude.{◌≡◌, ◌-◌, ◌*◌, length};
ghost use Rattle.refusal.specs.Checks.{Answers, Judges};
ghost use Rattle.limits.specs.document.Limits.{size};
ghost use Rattle.edition.specs.document.Edition.{neighbours_in};
ghost use Rattle.form.specs.document.Form.{IsNTuple, IsCentred};
ghost use Rattle.bits.specs.document.Bits.{bytes as bit_bytes, word, Fill, Nothing, Zeros};
ghost use Rattle.bits.specs.Decided.{Decision};
ghost use Rattle.fraction.specs.document.Fraction.{bits_of};
ghost use Rattle.zurkhovel.specs.document.InEdition.{code_table, form_table, edge_table, packed_table, whole_table, fraction_table, cam_table, zero_table, a_table};
ghost use Rattle.zurkhovel.specs.document.Same.{both_rows};

use edition::limit_in;
use limits::SIZE;
use refusal::{ListRefusal, Refusal};

// Digits lent by themselves, as a right rooted code.
pub(crate) fn code(edition: usize, code: &[u8]) -> Result<(), Refusal>
    ensures { Answers (code_table edition code.now) result }
{
    let limit = limit_in(edition)?;
    digit_code::check(limit, code)
}

// As an N-tuple code.
pub(crate) fn n_tuple(edition: usize, code: &[u8]) -> Result<(), Refusal>
    ensures { Answers (form_table edition IsNTuple code.now) result }
{
    let limit = limit_in(edition)?;
    form_coder::check_n_tuple(limit, code)
}

// As a centred code.
pub(crate) fn centred(edition: usize, code: &[u8]) -> Result<(), Refusal>
    ensures { Answers (form_table edition IsCentred code.now) result }
{
    let limit = limit_in(edition)?;
    centred_check::check(limit, code)
}

// An edge list of at most `most` vertices, and a root.
pub(crate) fn edges(
    edition: usize,
    most: usize,
    n: usize,
    edges: &[u8],
    root: usize,
) -> Result<(), Refusal>
    ensures { Answers (edge_table edition most n edges.now root) result }
{
    let limit = limit_in(edition)?;
    edge_list::check(most, limit, n, edges, root)
}

// Two edge lists, the first list's refusals first.
pub(crate) fn both(
    edition: usize,
    n1: usize,
    edges1: &[u8],
    n2: usize,
    edges2: &[u8],
) -> Result<(), ListRefusal>
    ensures { Judges (both_rows edition n1 edges1.now n2 edges2.now) result }
{
    let limit = match limit_in(edition) {
        Ok(limit) => limit,
        Err(refusal) => return Err(ListRefusal { list: 0, refusal }),
    };
    if let Err(refusal) = edge_list::check(SIZE, limit, n1, edges1, 1) {
        return Err(ListRefusal { list: 1, refusal });
    }
    if let Err(refusal) = edge_list::check(SIZE, limit, n2, edges2, 1) {
        return Err(ListRefusal { list: 2, refusal });
    }
    Ok(())
}

// A CAM.
pub(crate) fn cam(edition: usize, n: usize, cam: &[u8]) -> Result<(), Refusal>
    ensures { Answers (cam_table edition n cam.now) result }
{
    let limit = limit_in(edition)?;
    adjacency::cam_check(limit, n, cam)
}

// A 0A.
pub(crate) fn zero_a(edition: usize, n: usize, value: u64) -> Result<(), Refusal>
    ensures { Answers (zero_table edition n value) result }
{
    let limit = limit_in(edition)?;
    adjacency::zero_check(limit, n, value)
}

// An A0.
pub(crate) fn a_zero(edition: usize, n: usize, value: u64) -> Result<(), Refusal>
    ensures { Answers (a_table edition n value) result }
{
    let limit = limit_in(edition)?;
    adjacency::a_check(limit, n, value)
}

// The right code in packed bytes.
pub(crate) fn packed(edition: usize, s: &[u8], out: &mut [u8]) -> Result<usize, Refusal>
    requires { length out.old ≡ size }
    ensures { Decision (packed_table edition s.now) (neighbours_in edition) Fill (bit_bytes s.now) out.new result }
{
    let limit = limit_in(edition)?;
    bits::packed_code(limit, s, out)
}

// In a whole number, with N beside it.
pub(crate) fn whole(edition: usize, n: usize, value: u64, out: &mut [u8]) -> Result<usize, Refusal>
    requires { length out.old ≡ size }
    ensures { Decision (whole_table edition n value) (neighbours_in edition) Nothing (word (2 * n - 1) value) out.new result }
{
    let limit = limit_in(edition)?;
    bits::number_code(limit, n, value, out)
}

// In a fraction.
pub(crate) fn fraction(edition: usize, x: f64, out: &mut [u8]) -> Result<usize, Refusal>
    requires { length out.old ≡ size }
    ensures { Decision (fraction_table edition x) (neighbours_in edition) Zeros (bits_of x) out.new result }
{
    let limit = limit_in(edition)?;
    fraction::fraction_code(limit, x, out)
}
