// Renumberings of one edge list onto another, as maps: one byte for each vertex of the first list, its number in the second.
ghost use Rattle.refusal.specs.document.Table.{Clear};
ghost use Rattle.limits.specs.document.Limits.{size};
ghost use Rattle.zurkhovel.specs.document.InEdition.{edge_table};
ghost use Rattle.refusal.specs.document.Outcome.{told_of, unwritten};
ghost use Rattle.refusal.specs.document.Reported.{answer, pairs, Reporting};
ghost use Rattle.zurkhovel.specs.document.Reported.{OfBoth};
ghost use Rattle.zurkhovel.specs.document.Maps.{HandOut, CheckRenumbering};

use super::editions;
use refusal::{ListRefusal, Reported};

// The list that a refusal of the map is told with.
pub const MAP: u8 = 3;

// The renumbering of two accepted edge lists: how many bytes are written, 0 where they are not the same. Lists of different sizes are not coded.
fn hand_out(
    edition: usize,
    n1: usize,
    edges1: &[u8],
    n2: usize,
    edges2: &[u8],
    out: &mut [u8],
) -> Result<Reported<usize>, ListRefusal>
    requires clear { Clear (edge_table edition size n1 edges1.now 1) }
    requires clear_2 { Clear (edge_table edition size n2 edges2.now 1) }
    ensures { Reporting (HandOut edition n1 edges1.now n2 edges2.now out.old out.new) (OfBoth n1 edges1.now n2 edges2.now) (told_of (answer result)) (pairs result) }
{
    if n1 != n2 {
        return Ok(Reported { value: 0, pairs: 0 });
    }
    let handed = renumber::hand_out(n1, edges1, edges2, out);
    match handed.answer {
        Ok(value) => Ok(Reported {
            value,
            pairs: handed.pairs,
        }),
        Err(refusal) => Err(ListRefusal { list: MAP, refusal }),
    }
}

// The renumbering of the first edge list onto the second, where they are the same skeleton; else nothing is written.
pub fn renumbering(
    edition: usize,
    n1: usize,
    edges1: &[u8],
    n2: usize,
    edges2: &[u8],
    out: &mut [u8],
) -> Result<Reported<usize>, ListRefusal>
    ensures { Reporting (HandOut edition n1 edges1.now n2 edges2.now out.old out.new) (OfBoth n1 edges1.now n2 edges2.now) (told_of (answer result)) (pairs result) }
{
    editions::both(edition, n1, edges1, n2, edges2)?;
    hand_out(edition, n1, edges1, n2, edges2, out)
}

// Whether a map is a renumbering of one accepted edge list onto another.
fn judge(
    edition: usize,
    n1: usize,
    edges1: &[u8],
    n2: usize,
    edges2: &[u8],
    map: &[u8],
) -> Result<(), ListRefusal>
    requires clear { Clear (edge_table edition size n1 edges1.now 1) }
    requires clear_2 { Clear (edge_table edition size n2 edges2.now 1) }
    ensures { CheckRenumbering edition n1 edges1.now n2 edges2.now map.now (told_of (unwritten result)) }
{
    match renumber::check(n1, edges1, n2, edges2, map) {
        Ok(()) => Ok(()),
        Err(refusal) => Err(ListRefusal { list: MAP, refusal }),
    }
}

// Whether a partner's map is a renumbering of the first edge list onto the second.
pub fn check_renumbering(
    edition: usize,
    n1: usize,
    edges1: &[u8],
    n2: usize,
    edges2: &[u8],
    map: &[u8],
) -> Result<(), ListRefusal>
    ensures { CheckRenumbering edition n1 edges1.now n2 edges2.now map.now (told_of (unwritten result)) }
{
    editions::both(edition, n1, edges1, n2, edges2)?; // The map's own refusals come behind these.
    judge(edition, n1, edges1, n2, edges2, map)
}
