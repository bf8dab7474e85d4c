// Equal vertices. A plain skeleton's atoms are all carbon.
ghost use Rattle.refusal.specs.document.Outcome.{told};
ghost use Rattle.form_coder.specs.document.Pairs.{CentredPairs};
ghost use Rattle.zurkhovel.specs.document.Alike.{EqualVertices};
ghost use Rattle.refusal.specs.document.Reported.{answer, pairs, Reporting};

use super::editions;
use limits::SIZE;
use refusal::{Refusal, Reported};

// The class of each vertex, in the centred code's numbering: one for two vertices that a renumbering of the skeleton onto itself carries to one
// another.
pub fn equal_vertices(
    edition: usize,
    n: usize,
    edges: &[u8],
    out: &mut [u8],
) -> Result<Reported<usize>, Refusal>
    ensures { Reporting (EqualVertices edition n edges.now out.old out.new) (CentredPairs n edges.now) (told (answer result)) (pairs result) }
{
    editions::edges(edition, SIZE, n, edges, 1)?;
    refusal::fits(n, out.len())?;
    let carbon = [0u8; SIZE];
    let mut ds = [0u8; SIZE];
    let mut marks = [0u8; SIZE];
    let pairs = form_coder::centred_marks(n, edges, &carbon, &mut ds, &mut marks);
    Ok(Reported {
        value: vertices::write_classes(&ds[..n], &marks[..n], out),
        pairs,
    })
}
