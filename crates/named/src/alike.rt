// Equal vertices of a skeleton with named atoms.
ghost use Rattle.std.specs.Prelude.{◌≡◌, [], ◌≤◌, length};
ghost use Rattle.refusal.specs.document.Table.{Gives};
ghost use Rattle.refusal.specs.document.Outcome.{told};
ghost use Rattle.limits.specs.document.Limits.{size};
ghost use Rattle.skeleton.specs.document.Label.{digits};
ghost use Rattle.skeleton.specs.document.AtomMarks as names;
ghost use Rattle.skeleton.specs.Label.{IsRootedₗ};
ghost use Rattle.orbits.specs.document.Carried.{ClassesOfₗ};
ghost use Rattle.orbits.specs.Classes.{classesₗ};
ghost use Rattle.refusal.specs.document.Reported.{answer, pairs, Reporting};
ghost use Rattle.named.specs.document.Codes.{NamedMiddles};
ghost use Rattle.named.specs.document.Alike.{NamedEqualVertices};

use super::marked;
use limits::{SIZE, VALENCE};
use refusal::{Refusal, Reported};

// The classes of the vertices of marks, with row 15.
fn classed(marks: &[u8], out: &mut [u8]) -> Result<usize, Refusal>
    requires marks_len_bound { (length marks.now ≤ size) × IsRootedₗ names.atoms marks.now }
    requires fact { ClassesOfₗ names.atoms marks.now (classesₗ names.atoms (digits names.atoms marks.now) marks.now) }
    ensures { Gives [] (λ l. l ≡ classesₗ names.atoms (digits names.atoms marks.now) marks.now) out.old out.new (told result) }
{
    let n = marks.len();
    refusal::fits(n, out.len())?;
    let mut ds = [0u8; SIZE];
    letters::write_digits(marks, &mut ds);
    Ok(vertices::write_classes(&ds[..n], marks, out))
}

// The class of each vertex, in the centred code's numbering: one for two vertices that a renumbering of the skeleton onto itself, keeping the atoms, carries
// to one another.
pub fn equal_vertices(
    n: usize,
    edges: &[u8],
    letters: &[u8],
    out: &mut [u8],
) -> Result<Reported<usize>, Refusal>
    ensures { Reporting (NamedEqualVertices n edges.now letters.now out.old out.new) (NamedMiddles n edges.now letters.now) (told (answer result)) (pairs result) }
{
    edge_list::check_letters(SIZE, VALENCE, n, edges, 1, letters)?;
    let mut marks = [0u8; SIZE];
    let pairs = marked::centred(n, edges, letters, &mut marks);
    let value = classed(&marks[..n], out)?;
    Ok(Reported { value, pairs })
}
