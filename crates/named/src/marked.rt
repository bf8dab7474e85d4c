// The marks of an accepted edge list with letters, and their digits and letters.
ghost use Rattle.std.specs.Prelude.{◌≡◌, [], ◌≤◌, length};
ghost use Rattle.refusal.specs.document.Table.{Clear};
ghost use Rattle.refusal.specs.document.Outcome.{told};
ghost use Rattle.refusal.specs.document.Both.{GivesBoth};
ghost use Rattle.limits.specs.document.Limits.{size, valence};
ghost use Rattle.skeleton.specs.document.Label.{rootedₗ, digits};
ghost use Rattle.skeleton.specs.document.Atom.{atom_at};
ghost use Rattle.skeleton.specs.document.AtomMarks as names;
ghost use Rattle.letters.specs.document.Letters.{letters_of};
ghost use Rattle.edge_list.specs.document.Letters.{letter_rows};
ghost use Rattle.form.specs.document.Labelled.{IsNTupleₗ, IsCentredₗ};
ghost use Rattle.named.specs.document.Codes.{NamedAtRoot, NamedWidest, NamedMiddles};
ghost use Rattle.named.specs.Marked.{Codes};

use limits::SIZE;
use refusal::Refusal;

// The marks of the rooted code at a vertex.
pub(crate) fn rooted(n: usize, edges: &[u8], letters: &[u8], root: usize, out: &mut [u8]) -> usize
    requires clear { Clear (letter_rows size valence n edges.now root letters.now) }
    requires n_in_bounds { n ≤ length out.old }
    ensures { Codes (λ c. c ≡ rootedₗ names.atoms (atom_at letters.now) n edges.now root) (NamedAtRoot n edges.now letters.now root) out.old n out.new result }
{
    let mut atoms = [0u8; SIZE];
    letters::name(letters, &mut atoms);
    form_coder::rooted_marks(n, edges, &atoms, root, out)
}

// The marks of the N-tuple code.
pub(crate) fn n_tuple(n: usize, edges: &[u8], letters: &[u8], out: &mut [u8]) -> usize
    requires clear { Clear (letter_rows size valence n edges.now 1 letters.now) }
    requires n_in_bounds { n ≤ length out.old }
    ensures { Codes (IsNTupleₗ names.atoms n edges.now (atom_at letters.now)) (NamedWidest n edges.now letters.now) out.old n out.new result }
{
    let mut atoms = [0u8; SIZE];
    letters::name(letters, &mut atoms);
    form_coder::n_tuple_marks(n, edges, &atoms, out)
}

// The marks of the centred code.
pub(crate) fn centred(n: usize, edges: &[u8], letters: &[u8], out: &mut [u8]) -> usize
    requires clear { Clear (letter_rows size valence n edges.now 1 letters.now) }
    requires n_in_bounds { n ≤ length out.old }
    ensures { Codes (IsCentredₗ names.atoms n edges.now (atom_at letters.now)) (NamedMiddles n edges.now letters.now) out.old n out.new result }
{
    let mut atoms = [0u8; SIZE];
    let mut order = [0u8; SIZE];
    letters::name(letters, &mut atoms);
    form_coder::numbered_marks(n, edges, &atoms, &mut order, out)
}

// The digits and the letters of marks, each to an output of its own.
pub(crate) fn spell(marks: &[u8], out: &mut [u8], letters: &mut [u8]) -> Result<usize, Refusal>
    ensures { GivesBoth [] (λ d l. (d ≡ digits names.atoms marks.now) × (l ≡ letters_of marks.now)) (out.old, letters.old) (out.new, letters.new) (told result) }
{
    let n = marks.len();
    refusal::fits(n, out.len())?;
    refusal::fits(n, letters.len())?;
    letters::write_digits(marks, out);
    letters::write_letters(marks, letters);
    Ok(n)
}
