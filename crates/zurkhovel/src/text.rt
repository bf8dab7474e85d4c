// Lines: one, and a text of them.
ghost use Rattle.refusal.specs.document.Outcome.{told};
ghost use Rattle.form_coder.specs.document.Pairs.{CentredPairs};
ghost use Rattle.refusal.specs.document.Reported.{answer, pairs, Reporting};
ghost use Rattle.zurkhovel.specs.document.Lines.{ReadLine, WriteLine, ReadText, ListText};
ghost use Rattle.zurkhovel.specs.document.InEdition.{edge_table};
ghost use Rattle.texts.specs.document.Demand.{Counted};

use super::editions;
use limits::{SIZE, VALENCE};
use lines::Progress;
use refusal::{Refusal, Reported};

// The digits of a text's first line, as values.
pub fn read_line(edition: usize, text: &[u8], out: &mut [u8]) -> Result<usize, Refusal>
    ensures { ReadLine edition text.now out.old out.new (told result) }
{
    lines::read_line_of(edition, text, out)
}

// The line of a skeleton's centred code.
pub fn write_line(
    edition: usize,
    n: usize,
    edges: &[u8],
    out: &mut [u8],
) -> Result<Reported<usize>, Refusal>
    ensures { Reporting (WriteLine (edge_table edition) n edges.now out.old out.new) (CentredPairs n edges.now) (told (answer result)) (pairs result) }
{
    editions::edges(edition, SIZE, n, edges, 1)?;
    let need = lines::extent(n);
    refusal::fits(need, out.len())?;
    let mut digits = [0u8; SIZE];
    let pairs = form_coder::centred(n, edges, &mut digits);
    Ok(Reported {
        value: lines::write(&digits[..n], out),
        pairs,
    })
}

// A text, line after line: for each line 64 bytes of `records`, one number and one place. It stops where the text ends, or where one of the
// three has no room for a line more; the caller goes on with the text from `at`.
pub fn read_text(
    edition: usize,
    text: &[u8],
    records: &mut [u8],
    numbers: &mut [u8],
    places: &mut [usize],
) -> Progress
    ensures { ReadText edition text.now records.old numbers.old places.old
        records.new numbers.new places.new result.lines result.at }
{
    lines::read_text(edition, text, records, numbers, places)
}

// How many lines were read as records, and how many were refused.
#[derive(Clone, Copy)]
pub struct Counts {
    pub read: usize,
    pub refused: usize,
}

// The counts of a text's answers, by their numbers.
pub fn count(numbers: &[u8]) -> Counts
    ensures { Counted numbers.now result.read result.refused }
{
    let mut read = 0;
    // `filter` and `count` take more than twice as many instructions.
    for k in numbers {
        if *k == 0 {
            read += 1;
        }
    }
    Counts {
        read,
        refused: numbers.len() - read,
    }
}

// The listing of a text, in edition 1: the bytes from number `from` on, counted from 0, as many as there is room for; how many that is. Where they are fewer
// than there is room for, the listing ends with them; else a caller goes on from `from` and as many more.
pub fn list(text: &[u8], from: usize, out: &mut [u8]) -> usize
    ensures { ListText text.now out.old out.new from result }
{
    listing_text::list(VALENCE, text, from, out)
}
