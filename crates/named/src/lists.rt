// The check of two edge lists with letters. It is not public.
ghost use Rattle.std.specs.Prelude.{[]};
ghost use Rattle.refusal.specs.Checks.{Judges};
ghost use Rattle.refusal.specs.document.Lists.{lists_rows};
ghost use Rattle.named.specs.document.Same.{named_list_rows};

use limits::{SIZE, VALENCE};
use refusal::ListRefusal;

// Two edge lists with letters, the first list's refusals first.
pub(crate) fn both(
    n1: usize,
    edges1: &[u8],
    letters1: &[u8],
    n2: usize,
    edges2: &[u8],
    letters2: &[u8],
) -> Result<(), ListRefusal>
    ensures { Judges (lists_rows [] (named_list_rows n1 edges1.now letters1.now) (named_list_rows n2 edges2.now letters2.now)) result }
{
    if let Err(refusal) = edge_list::check_letters(SIZE, VALENCE, n1, edges1, 1, letters1) {
        return Err(ListRefusal { list: 1, refusal });
    }
    if let Err(refusal) = edge_list::check_letters(SIZE, VALENCE, n2, edges2, 1, letters2) {
        return Err(ListRefusal { list: 2, refusal });
    }
    Ok(())
}
