// Editions: how many neighbours a vertex may have in each. What an edition is, and refusal 22, stands in specs/document/Edition.antt.
#![tactic(auto)]

ghost use Rattle.std.specs.Prelude.{◌≡◌};
ghost use Rattle.edition.specs.document.Edition.{neighbours_in};
ghost use Rattle.edition.specs.Limit.{Limit};

use limits::VALENCE;
use refusal::Refusal;

// Neighbours of a vertex in edition 2, at most.
const NINE: u8 = 9;

// Neighbours of a vertex in an edition, at most; 0 where there is no such edition.
pub fn limit_of(edition: usize) -> u8
    ensures { result ≡ neighbours_in edition }
{
    if edition == 1 {
        return VALENCE;
    }
    if edition == 2 {
        return NINE;
    }
    0
}

// The same, and 22 where there is no such edition.
pub fn limit_in(edition: usize) -> Result<u8, Refusal>
    ensures { Limit edition result }
{
    let limit = limit_of(edition);
    if limit == 0 {
        return Err(Refusal { row: 22, place: 0 });
    }
    Ok(limit)
}
