// Named lines: one, and a text of them.
ghost use Rattle.std.specs.Prelude.{◌≡◌, [], ◌≤◌, length};
ghost use Rattle.refusal.specs.document.Table.{Gives};
ghost use Rattle.refusal.specs.document.Outcome.{told};
ghost use Rattle.limits.specs.document.Limits.{size};
ghost use Rattle.skeleton.specs.document.Label.{digits};
ghost use Rattle.skeleton.specs.document.AtomMarks as names;
ghost use Rattle.letters.specs.document.Letters.{letters_of};
ghost use Rattle.texts.specs.document.Numerals.{Digits};
ghost use Rattle.named_lines.specs.document.Named.{named_line};
ghost use Rattle.refusal.specs.document.Reported.{answer, pairs, Reporting};
ghost use Rattle.named.specs.document.Codes.{NamedMiddles};
ghost use Rattle.named.specs.document.Text.{NamedWriteLine, NamedReadLine, NamedReadText, NamedListText};

use super::marked;
use limits::{SIZE, VALENCE};
use lines::Progress;
use refusal::{Refusal, Reported};

// The digits, as values, and the letters of a text's first line.
pub fn read_line(text: &[u8], out: &mut [u8], letters: &mut [u8]) -> Result<usize, Refusal>
    ensures { NamedReadLine text.now out.old letters.old out.new letters.new (told result) }
{
    named_lines::read_line(text, out, letters)
}

// The line of marks, with row 15.
fn line(marks: &[u8], out: &mut [u8]) -> Result<usize, Refusal>
    requires marks_len_bound { length marks.now ≤ size }
    requires digits { Digits (digits names.atoms marks.now) }
    ensures { Gives [] (λ t. t ≡ named_line (digits names.atoms marks.now) (letters_of marks.now)) out.old out.new (told result) }
{
    let n = marks.len();
    let mut ds = [0u8; SIZE];
    let mut ls = [0u8; SIZE];
    letters::write_digits(marks, &mut ds);
    letters::write_letters(marks, &mut ls);
    let need = named_lines::extent(&ls[..n]);
    refusal::fits(need, out.len())?;
    Ok(named_lines::write(&ds[..n], &ls[..n], out))
}

// The named line of a skeleton's centred code.
pub fn write_line(
    n: usize,
    edges: &[u8],
    letters: &[u8],
    out: &mut [u8],
) -> Result<Reported<usize>, Refusal>
    ensures { Reporting (NamedWriteLine n edges.now letters.now out.old out.new) (NamedMiddles n edges.now letters.now) (told (answer result)) (pairs result) }
{
    edge_list::check_letters(SIZE, VALENCE, n, edges, 1, letters)?;
    let mut marks = [0u8; SIZE];
    let pairs = marked::centred(n, edges, letters, &mut marks);
    let value = line(&marks[..n], out)?;
    Ok(Reported { value, pairs })
}

// A text, line after line: for each line 64 bytes of `records`, 64 of `letters`, one number and one place. It stops where the text ends, or
// where one of these has no room for a further line.
pub fn read_text(
    text: &[u8],
    records: &mut [u8],
    letters: &mut [u8],
    numbers: &mut [u8],
    places: &mut [usize],
) -> Progress
    ensures { NamedReadText
        text.now records.old letters.old numbers.old places.old
        records.new letters.new numbers.new places.new result.lines result.at }
{
    named_lines::read_text(text, records, letters, numbers, places)
}

// The listing of a text of named lines, from byte `from` on, as far as there is room; how many bytes that is.
pub fn list(text: &[u8], from: usize, out: &mut [u8]) -> usize
    ensures { NamedListText text.now out.old out.new from result }
{
    listing_text::list_named(text, from, out)
}
