// Digit codes and edge lists with letters. A code is a list of digits and one of letters, in digit order.
ghost use Rattle.std.specs.Prelude.{◌≡◌, []};
ghost use Rattle.refusal.specs.Checks.{Answers};
ghost use Rattle.refusal.specs.document.Outcome.{told, told_of, unwritten};
ghost use Rattle.limits.specs.document.Limits.{size, valence};
ghost use Rattle.lettered_check.specs.document.Lettered.{lettered_form_rows};
ghost use Rattle.refusal.specs.document.Both.{GivesBoth};
ghost use Rattle.digit_code.specs.document.Code.{decode};
ghost use Rattle.zurkhovel.specs.Rooting.{EndsWhole};
ghost use Rattle.skeleton.specs.document.AtomMarks as names;
ghost use Rattle.form.specs.document.Labelled.{IsNTupleₗ, IsCentredₗ};
ghost use Rattle.refusal.specs.document.Table.{Clear, gives};
ghost use Rattle.refusal.specs.document.Reported.{answer, pairs, Reporting};
ghost use Rattle.named.specs.document.Codes.{NamedCheckCode, NamedDecodeCode, NamedDecodeForm, NamedCheckEdges, NamedRootedCode, NamedFormCode, NamedAtRoot, NamedWidest, NamedMiddles};
ghost use Rattle.named.specs.document.Same.{named_list_rows, NamedSameSkeleton, NamedOfBoth};

use super::{lists, marked};
use limits::{SIZE, VALENCE};
use refusal::{ListRefusal, Refusal, Reported};

// Whether digits with letters are a right rooted code.
pub fn check_code(code: &[u8], letters: &[u8]) -> Result<(), Refusal>
    ensures { NamedCheckCode code.now letters.now (told (unwritten result)) }
{
    lettered_check::check_code(code, letters)
}

// Whether N, an edge list, letters and a root are a skeleton with named atoms and one of its vertices.
pub fn check_edges(n: usize, edges: &[u8], letters: &[u8], root: usize) -> Result<(), Refusal>
    ensures { NamedCheckEdges n edges.now letters.now root (told (unwritten result)) }
{
    edge_list::check_letters(SIZE, VALENCE, n, edges, root, letters)
}

// The rooted code at a vertex.
pub fn rooted_code(
    n: usize,
    edges: &[u8],
    letters: &[u8],
    root: usize,
    out: &mut [u8],
    spelling: &mut [u8],
) -> Result<Reported<usize>, Refusal>
    ensures { Reporting (NamedRootedCode n edges.now letters.now root (out.old, spelling.old) (out.new, spelling.new)) (NamedAtRoot n edges.now letters.now root) (told (answer result)) (pairs result) }
{
    edge_list::check_letters(SIZE, VALENCE, n, edges, root, letters)?;
    let mut marks = [0u8; SIZE];
    let pairs = marked::rooted(n, edges, letters, root, &mut marks);
    let value = marked::spell(&marks[..n], out, spelling)?;
    Ok(Reported { value, pairs })
}

// The N-tuple code.
pub fn n_tuple_code(
    n: usize,
    edges: &[u8],
    letters: &[u8],
    out: &mut [u8],
    spelling: &mut [u8],
) -> Result<Reported<usize>, Refusal>
    ensures { Reporting (NamedFormCode (IsNTupleₗ names.atoms) n edges.now letters.now (out.old, spelling.old) (out.new, spelling.new)) (NamedWidest n edges.now letters.now) (told (answer result)) (pairs result) }
{
    edge_list::check_letters(SIZE, VALENCE, n, edges, 1, letters)?;
    let mut marks = [0u8; SIZE];
    let pairs = marked::n_tuple(n, edges, letters, &mut marks);
    let value = marked::spell(&marks[..n], out, spelling)?;
    Ok(Reported { value, pairs })
}

// The centred code.
pub fn centred_code(
    n: usize,
    edges: &[u8],
    letters: &[u8],
    out: &mut [u8],
    spelling: &mut [u8],
) -> Result<Reported<usize>, Refusal>
    ensures { Reporting (NamedFormCode (IsCentredₗ names.atoms) n edges.now letters.now (out.old, spelling.old) (out.new, spelling.new)) (NamedMiddles n edges.now letters.now) (told (answer result)) (pairs result) }
{
    edge_list::check_letters(SIZE, VALENCE, n, edges, 1, letters)?;
    let mut marks = [0u8; SIZE];
    let pairs = marked::centred(n, edges, letters, &mut marks);
    let value = marked::spell(&marks[..n], out, spelling)?;
    Ok(Reported { value, pairs })
}

// The edges of digits that end, and their letters.
fn lay(code: &[u8], letters: &[u8], edges: &mut [u8], spelling: &mut [u8]) -> Result<usize, Refusal>
    requires { EndsWhole code.now }
    ensures { GivesBoth [] (λ E l. (E ≡ decode code.now) × (l ≡ letters.now)) (edges.old, spelling.old) (edges.new, spelling.new) (told result) }
{
    let need = 2 * (code.len() - 1);
    refusal::fits(need, edges.len())?;
    refusal::fits(letters.len(), spelling.len())?;
    copying::copy(letters, spelling);
    Ok(digit_code::write_edges(code, edges))
}

// The edges (parent, child), for child 2 to N, of a right rooted code, and the letters of its vertices.
pub fn decode_code(
    code: &[u8],
    letters: &[u8],
    edges: &mut [u8],
    spelling: &mut [u8],
) -> Result<usize, Refusal>
    ensures { NamedDecodeCode code.now letters.now (edges.old, spelling.old) (edges.new, spelling.new) (told result) }
{
    lettered_check::check_code(code, letters)?;
    lay(code, letters, edges, spelling)
}

// The same of a centred code.
pub fn decode_centred(
    code: &[u8],
    letters: &[u8],
    edges: &mut [u8],
    spelling: &mut [u8],
) -> Result<usize, Refusal>
    ensures { NamedDecodeForm (IsCentredₗ names.atoms) code.now letters.now (edges.old, spelling.old) (edges.new, spelling.new) (told result) }
{
    lettered_check::check_centred(code, letters)?;
    lay(code, letters, edges, spelling)
}

// Digits and letters lent by themselves that are to be an N-tuple code: 2, 3, 21, 10, 20, 11 to 13, and 14.
fn check_n_tuple(code: &[u8], letters: &[u8]) -> Result<(), Refusal>
    ensures { Answers (lettered_form_rows (IsNTupleₗ names.atoms) size valence code.now letters.now) result }
{
    let mut marks = [0u8; SIZE];
    lettered_check::check_rooted(code, letters, &mut marks)?;
    form_coder::n_tuple_judged(code, &marks[..code.len()])
}

// The edges and letters of an N-tuple code.
pub fn decode_n_tuple(
    code: &[u8],
    letters: &[u8],
    edges: &mut [u8],
    spelling: &mut [u8],
) -> Result<usize, Refusal>
    ensures { NamedDecodeForm (IsNTupleₗ names.atoms) code.now letters.now (edges.old, spelling.old) (edges.new, spelling.new) (told result) }
{
    check_n_tuple(code, letters)?;
    lay(code, letters, edges, spelling)
}

// Whether two accepted edge lists with letters are the same skeleton. Lists of different sizes are not coded.
fn judge(
    n1: usize,
    edges1: &[u8],
    letters1: &[u8],
    n2: usize,
    edges2: &[u8],
    letters2: &[u8],
) -> Reported<bool>
    requires clear { Clear (named_list_rows n1 edges1.now letters1.now) }
    requires clear_2 { Clear (named_list_rows n2 edges2.now letters2.now) }
    ensures { Reporting (NamedSameSkeleton n1 edges1.now letters1.now n2 edges2.now letters2.now) (NamedOfBoth n1 edges1.now letters1.now n2 edges2.now letters2.now) (gives result.value) result.pairs }
{
    if n1 != n2 {
        return Reported {
            value: false,
            pairs: 0,
        };
    }
    let mut a = [0u8; SIZE];
    let mut b = [0u8; SIZE];
    let first = marked::centred(n1, edges1, letters1, &mut a);
    let second = marked::centred(n2, edges2, letters2, &mut b);
    Reported {
        value: a[..n1] == b[..n2],
        pairs: first + second,
    }
}

// Whether two edge lists with letters are the same skeleton: whether their centred codes, digits and atoms, are equal.
pub fn same_skeleton(
    n1: usize,
    edges1: &[u8],
    letters1: &[u8],
    n2: usize,
    edges2: &[u8],
    letters2: &[u8],
) -> Result<Reported<bool>, ListRefusal>
    ensures { Reporting (NamedSameSkeleton n1 edges1.now letters1.now n2 edges2.now letters2.now) (NamedOfBoth n1 edges1.now letters1.now n2 edges2.now letters2.now) (told_of (answer result)) (pairs result) }
{
    lists::both(n1, edges1, letters1, n2, edges2, letters2)?;
    Ok(judge(n1, edges1, letters1, n2, edges2, letters2))
}
