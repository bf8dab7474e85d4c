// Renumberings of one edge list with letters onto another, as maps: one byte for each vertex of the first list, its number in the second. A map keeps the atoms.
ghost use Rattle.refusal.specs.document.Table.{Clear};
ghost use Rattle.refusal.specs.document.Outcome.{told_of, unwritten};
ghost use Rattle.refusal.specs.document.Reported.{answer, pairs, Reporting};
ghost use Rattle.named.specs.document.Same.{named_list_rows, NamedHandOut, NamedCheckRenumbering, NamedOfBoth};

use super::lists;
use limits::SIZE;
use refusal::{ListRefusal, Reported};
use zurkhovel::maps::MAP;

// The renumbering of two accepted edge lists. Lists of different sizes are not coded.
fn hand_out(
    n1: usize,
    edges1: &[u8],
    letters1: &[u8],
    n2: usize,
    edges2: &[u8],
    letters2: &[u8],
    out: &mut [u8],
) -> Result<Reported<usize>, ListRefusal>
    requires clear { Clear (named_list_rows n1 edges1.now letters1.now) }
    requires clear_2 { Clear (named_list_rows n2 edges2.now letters2.now) }
    ensures { Reporting (NamedHandOut n1 edges1.now letters1.now n2 edges2.now letters2.now out.old out.new) (NamedOfBoth n1 edges1.now letters1.now n2 edges2.now letters2.now) (told_of (answer result)) (pairs result) }
{
    if n1 != n2 {
        return Ok(Reported { value: 0, pairs: 0 });
    }
    let mut atoms1 = [0u8; SIZE];
    letters::name(letters1, &mut atoms1);
    let mut atoms2 = [0u8; SIZE];
    letters::name(letters2, &mut atoms2);
    let handed = renumber::hand_out_marks(n1, edges1, &atoms1, edges2, &atoms2, out);
    match handed.answer {
        Ok(value) => Ok(Reported {
            value,
            pairs: handed.pairs,
        }),
        Err(refusal) => Err(ListRefusal { list: MAP, refusal }),
    }
}

// The renumbering of the first edge list onto the second, where they are the same skeleton with the same atoms; else nothing is written.
pub fn renumbering(
    n1: usize,
    edges1: &[u8],
    letters1: &[u8],
    n2: usize,
    edges2: &[u8],
    letters2: &[u8],
    out: &mut [u8],
) -> Result<Reported<usize>, ListRefusal>
    ensures { Reporting (NamedHandOut n1 edges1.now letters1.now n2 edges2.now letters2.now out.old out.new) (NamedOfBoth n1 edges1.now letters1.now n2 edges2.now letters2.now) (told_of (answer result)) (pairs result) }
{
    lists::both(n1, edges1, letters1, n2, edges2, letters2)?;
    hand_out(n1, edges1, letters1, n2, edges2, letters2, out)
}

// Whether a map is a renumbering of one accepted edge list onto another that keeps the atoms.
fn judge(
    n1: usize,
    edges1: &[u8],
    letters1: &[u8],
    n2: usize,
    edges2: &[u8],
    letters2: &[u8],
    map: &[u8],
) -> Result<(), ListRefusal>
    requires clear { Clear (named_list_rows n1 edges1.now letters1.now) }
    requires clear_2 { Clear (named_list_rows n2 edges2.now letters2.now) }
    ensures { NamedCheckRenumbering n1 edges1.now letters1.now n2 edges2.now letters2.now map.now (told_of (unwritten result)) }
{
    let mut atoms1 = [0u8; SIZE];
    letters::name(letters1, &mut atoms1);
    let mut atoms2 = [0u8; SIZE];
    letters::name(letters2, &mut atoms2);
    match renumber::check_marks(n1, edges1, &atoms1, n2, edges2, &atoms2, map) {
        Ok(()) => Ok(()),
        Err(refusal) => Err(ListRefusal { list: MAP, refusal }),
    }
}

// Whether a partner's map is a renumbering of the first edge list onto the second that keeps the atoms.
pub fn check_renumbering(
    n1: usize,
    edges1: &[u8],
    letters1: &[u8],
    n2: usize,
    edges2: &[u8],
    letters2: &[u8],
    map: &[u8],
) -> Result<(), ListRefusal>
    ensures { NamedCheckRenumbering n1 edges1.now letters1.now n2 edges2.now letters2.now map.now (told_of (unwritten result)) }
{
    lists::both(n1, edges1, letters1, n2, edges2, letters2)?;
    judge(n1, edges1, letters1, n2, edges2, letters2, map)
}
