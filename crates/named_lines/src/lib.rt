// Named lines: their form, found; a line and a text, read; a line, written. What a named line is stands in specs/document/Named.antt, what
// the functions promise that find its form in specs/NamedForm.antt, and that write its parts in specs/NamedWriting.antt. What plain lines have in common
// with them is done by `lines`.
#![tactic(auto)]

ghost use Rattle.std.specs.Prelude.{◌≡◌, List, ◌∷◌, ℕ, ◌+◌, ◌≤◌, length};
ghost use Rattle.limits.specs.document.Limits.{size, valence};
ghost use Rattle.refusal.specs.document.Table.{row3};
ghost use Rattle.refusal.specs.Checks.{Answers};
ghost use Rattle.refusal.specs.document.Outcome.{told};
ghost use Rattle.lettered_check.specs.Rows.{lettered_rows};
ghost use Rattle.lines.specs.document.Line.{line};
ghost use Rattle.lines.specs.document.Marks.{WrittenDigits};
ghost use Rattle.lines.specs.Form.{values};
ghost use Rattle.laws.specs.Tells.{Tells};
ghost use Rattle.skeleton.specs.document.Atom.{Letter};
ghost use Rattle.laws.specs.document.Each.{Each};
ghost use Rattle.texts.specs.document.Parts.{tally};
ghost use Rattle.named_lines.specs.document.Named.{named_line, named_table, NamedLineRead, NamedTextRead};
ghost use Rattle.laws.specs.document.Laid.{laid_over, Laid};
ghost use Rattle.texts.specs.document.Numerals.{Digits};
ghost use Rattle.named_lines.specs.NamedText.{NamedRoom};
ghost use Rattle.named_lines.specs.NamedWriting.{Appends, count, counts, opened};
ghost use Rattle.named_lines.specs.NamedForm.{NumberRead, Tallies, CountsRead, TailRead, ShapeRead, NamedLocated};

use limits::SIZE;
use lines::{Progress, Span, until};
use refusal::Refusal;

// What stands behind the digits of a named line.
#[derive(Clone, Copy)]
pub struct Lettering {
    // how many letters there are
    pub letters: usize,
    // whether the counts behind them are theirs
    pub matching: bool,
}

// The form of a named line.
#[derive(Clone, Copy)]
pub struct Layout {
    // what its count says
    pub count: usize,
    // where its digits begin, and where they end
    pub start: usize,
    pub end: usize,
    // and what stands behind them
    pub tail: Lettering,
}

// The number that `t` is, and 100 where it is above 99; none where it is none.
fn number(t: &[u8]) -> Option<usize>
    ensures { NumberRead t.now result }
{
    if !lines::digits(t) {
        return None;
    }
    let first = (t[0] - b'0') as usize;
    if t.len() == 1 {
        return Some(first);
    }
    if first == 0 {
        return None;
    }
    if t.len() == 2 {
        return Some(10 * first + (t[1] - b'0') as usize);
    }
    Some(100)
}

// How often `a` stands in `t`. A byte is wide enough for the number, and so 16 places are compared at once.
fn tallied(t: &[u8], a: u8) -> usize
    requires { length t.now ≤ 99 }
    ensures { result ≡ tally a t.now }
{
    let mut n: u8 = 0;
    for b in t {
        if *b == a {
            n += 1;
        }
    }
    n as usize
}

// Whether the letters are at most SIZE, and these are their counts.
fn matching(letters: &[u8], c: usize, n: usize, o: usize) -> bool
    ensures { Tells ((length letters.now ≤ size) × Tallies letters.now c n o) result }
{
    letters.len() <= SIZE
        && tallied(letters, b'C') == c
        && tallied(letters, b'N') == n
        && tallied(letters, b'O') == o
}

// The counts of letters: whether they are those of `letters`; none where they have not the form.
fn counts(t: &[u8], letters: &[u8]) -> Option<bool>
    ensures { CountsRead t.now letters.now result }
{
    let a = until(b' ', t);
    if a == t.len() {
        return None;
    }
    let b = a + 1 + until(b' ', &t[a + 1..]);
    if b == t.len() {
        return None;
    }
    let c = number(&t[..a])?;
    let n = number(&t[a + 1..b])?;
    let o = number(&t[b + 1..])?;
    Some(matching(letters, c, n, o))
}

// Whether `t` is one or more letters.
fn lettered(t: &[u8]) -> bool
    ensures { Tells ((1 ≤ length t.now) × Each Letter t.now) result }
{
    !t.is_empty() && t.iter().all(|b| letters::is_letter(*b))
}

// Letters, a space and their counts.
fn tail(t: &[u8]) -> Option<Lettering>
    ensures { TailRead t.now result }
{
    let f = until(b' ', t);
    if f == t.len() {
        return None;
    }
    if !lettered(&t[..f]) {
        return None;
    }
    let k = counts(&t[f + 1..], &t[..f])?;
    Some(Lettering {
        letters: f,
        matching: k,
    })
}

// The form of a line without its line feed; none where it has another.
fn shape(b: &[u8]) -> Option<Layout>
    ensures { ShapeRead b.now result }
{
    let opening = lines::begin(b)?;
    let s = opening.start;
    let e = s + until(b' ', &b[s..]);
    if e == b.len() {
        return None;
    }
    if !lines::digits(&b[s..e]) {
        return None;
    }
    let l = tail(&b[e + 1..])?;
    Some(Layout {
        count: opening.count,
        start: s,
        end: e,
        tail: l,
    })
}

// The digits of a text's first line, which is judged by rows 1, 2, 3, 5 and 21; as many letters stand behind one more byte.
fn locate(text: &[u8]) -> Result<Span, Refusal>
    ensures { NamedLocated size named_table text.now result }
{
    let end = lines::feed(text);
    if end == text.len() {
        return Err(Refusal { row: 1, place: 0 });
    }
    let Some(l) = shape(&text[..end]) else {
        return Err(Refusal { row: 2, place: 0 });
    };
    if l.count == 0 || SIZE < l.count {
        return Err(Refusal { row: 3, place: 0 });
    }
    if l.end - l.start != l.count {
        return Err(Refusal { row: 5, place: 0 });
    }
    if l.tail.letters != l.count || !l.tail.matching {
        return Err(Refusal { row: 21, place: 0 });
    }
    Ok(Span {
        start: l.start,
        end: l.end,
    })
}

// Letters as they are, to the start of what is lent.
fn lay(t: &[u8], out: &mut [u8])
    requires { length t.now ≤ length out.old }
    ensures { out.new ≡ laid_over t.now out.old }
{
    out[..t.len()].copy_from_slice(t);
}

// The digits of a line, as they are written, with its letters: row 3 of digits lent by themselves, and the rows of a named line's.
fn judge(t: &[u8], letters: &[u8]) -> Result<(), Refusal>
    requires written_digits { WrittenDigits t.now }
    requires t_len_bound { length t.now ≤ size }
    requires letters_len { length letters.now ≡ length t.now }
    ensures { Answers (row3 size (length (values t.now)) ∷ lettered_rows valence (values t.now) letters.now) result }
{
    let mut v = [0u8; SIZE];
    lines::read_digits(t, &mut v);
    lettered_check::check(&v[..t.len()], letters)
}

// The first line of a text: its digits as values, and its letters, each to the start of what is lent for them.
pub fn read_line(text: &[u8], out: &mut [u8], letters: &mut [u8]) -> Result<usize, Refusal>
    ensures { NamedLineRead size named_table text.now out.old letters.old out.new letters.new (told result) }
{
    let at = locate(text)?;
    let n = at.end - at.start;
    let digits = &text[at.start..at.end];
    let spelling = &text[at.end + 1..at.end + 1 + n];
    judge(digits, spelling)?;
    refusal::fits(n, out.len())?;
    refusal::fits(n, letters.len())?;
    lines::read_digits(digits, out);
    lay(spelling, letters);
    Ok(n)
}

// How many lines there is room for: SIZE bytes of digits, as many of letters, a number and a place for each.
fn room(records: usize, letters: usize, numbers: usize, places: usize) -> usize
    ensures { NamedRoom records letters numbers places result }
{
    lines::room(records.min(letters), numbers, places)
}

// A text, line after line, as far as there is room.
pub fn read_text(
    text: &[u8],
    records: &mut [u8],
    letters: &mut [u8],
    numbers: &mut [u8],
    places: &mut [usize],
) -> Progress
    ensures { NamedTextRead size named_table size
        text.now records.old letters.old numbers.old places.old
        records.new letters.new numbers.new places.new result.lines result.at }
{
    let many = room(records.len(), letters.len(), numbers.len(), places.len());
    let mut at = 0;
    for k in 0..many {
        if at == text.len() {
            return Progress { lines: k, at };
        }
        let r = read_line(
            &text[at..],
            &mut records[SIZE * k..SIZE * k + SIZE],
            &mut letters[SIZE * k..SIZE * k + SIZE],
        );
        lines::note(r, numbers, places, k);
        at = lines::behind(text, at);
    }
    Progress { lines: many, at }
}

// A space and how often `a` stands in `letters`, behind the first `at` bytes of what is lent; the place behind them.
fn put_count(letters: &[u8], a: u8, out: &mut [u8], at: usize) -> usize
    requires letters_len_bound { length letters.now ≤ 99 }
    requires letters_in_bounds { at + length (count a letters.now) ≤ length out.old }
    ensures { Appends (count a letters.now) out.old out.new at result }
{
    let n = tallied(letters, a);
    out[at] = b' ';
    let m = lines::write_count(n, &mut out[at + 1..]);
    at + 1 + m
}

// The counts of C, N and O, in the same way.
fn put_counts(letters: &[u8], out: &mut [u8], at: usize) -> usize
    requires letters_len_bound { length letters.now ≤ 99 }
    requires letters_in_bounds { at + length (counts letters.now) ≤ length out.old }
    ensures { Appends (counts letters.now) out.old out.new at result }
{
    let b = put_count(letters, b'C', out, at);
    let c = put_count(letters, b'N', out, b);
    put_count(letters, b'O', out, c)
}

// Count, digits and letters, to the start of what is lent; how many bytes that is.
fn put_front(code: &[u8], letters: &[u8], out: &mut [u8]) -> usize
    requires code_len_bound { length code.now ≤ 99 }
    requires digits { Digits code.now }
    requires letters_in_bounds { length (line code.now) + length letters.now ≤ length out.old }
    ensures { Laid (opened code.now letters.now) out.old out.new result }
{
    let at = lines::write(code, out);
    out[at - 1] = b' ';
    lay(letters, &mut out[at..]);
    at + letters.len()
}

// The line of a code with its letters, to the start of what is lent; how many bytes that is.
pub fn write(code: &[u8], letters: &[u8], out: &mut [u8]) -> usize
    requires code_len_bound { length code.now ≤ 99 }
    requires digits { Digits code.now }
    requires letters_len { length letters.now ≡ length code.now }
    requires letters_in_bounds { length (named_line code.now letters.now) ≤ length out.old }
    ensures { Laid (named_line code.now letters.now) out.old out.new result }
{
    let at = put_front(code, letters, out);
    let end = put_counts(letters, out, at);
    out[end] = b'\n';
    end + 1
}

// How many bytes a space and the count of `a` take.
fn width(letters: &[u8], a: u8) -> usize
    requires { length letters.now ≤ 99 }
    ensures letters_len { length (count a letters.now) ≡ result }
    ensures upper_bound { result ≤ 3 }
{
    if tallied(letters, a) < 10 {
        return 2;
    }
    3
}

// How many bytes the line of a code with these letters takes.
pub fn extent(letters: &[u8]) -> usize
    requires { length letters.now ≤ 99 }
    ensures { (c : List ℕ) → length c ≡ length letters.now → length (named_line c letters.now) ≡ result }
{
    let n = letters.len();
    lines::extent(n) + n + width(letters, b'C') + width(letters, b'N') + width(letters, b'O') + 1
}
