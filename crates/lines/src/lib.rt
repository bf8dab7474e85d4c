// Lines: the form of a line, found and written; a line and a text, read. What a line is stands in specs/document/Line.antt, what the
// functions on its form promise in specs/Form.antt, and what reading promises in specs/document/Reading.antt.
#![tactic(auto)]

ghost use Rattle.std.specs.Prelude.{◌≡◌, true, List, ◌∷◌, ℕ, ◌≤◌, ◌<◌, length, set};
ghost use Rattle.laws.specs.document.Laid.{laid_over, Laid};
ghost use Rattle.laws.specs.document.Each.{Each};
ghost use Rattle.laws.specs.Each.{Passed};
ghost use Rattle.texts.specs.document.Bytes.{Other};
ghost use Rattle.limits.specs.document.Limits.{size};
ghost use Rattle.refusal.specs.document.Table.{row3};
ghost use Rattle.refusal.specs.Checks.{Answers};
ghost use Rattle.refusal.specs.document.Outcome.{told};
ghost use Rattle.texts.specs.document.Numerals.{Digits, figures, decimal};
ghost use Rattle.texts.specs.document.Lent.{number_of, place_of};
ghost use Rattle.texts.specs.Judging.{judged};
ghost use Rattle.texts.specs.Ending.{Until, UpTo, Behind};
ghost use Rattle.lines.specs.document.Line.{line, plain_lines};
ghost use Rattle.lines.specs.document.Judged.{digit_table};
ghost use Rattle.lines.specs.document.Reading.{lines_of, LineRead, TextRead};
ghost use Rattle.lines.specs.Form.{Room, Value, values, Figured, Opens, Forms, Located};
ghost use Rattle.lines.specs.document.Marks.{WrittenDigits};

use limits::SIZE;
use refusal::Refusal;

// Bytes that are compared at once.
const BLOCK: usize = 16;

// How a line begins: with a count and a space.
#[derive(Clone, Copy)]
pub struct Opening {
    // what its count says
    pub count: usize,
    // where what follows the space begins
    pub start: usize,
}

// Where the digits of a line begin, and where they end.
#[derive(Clone, Copy)]
pub struct Span {
    pub start: usize,
    pub end: usize,
}

// How far a text is read: so many lines, up to a place.
#[derive(Clone, Copy)]
pub struct Progress {
    pub lines: usize,
    pub at: usize,
}

// Whether no byte of `t` is k, where it says so. All are looked at, so that the machine can compare many at once.
fn none(k: u8, t: &[u8]) -> bool
    ensures { result ≡ true → Each (Other k) t.now }
{
    let mut free = true;
    for b in t {
        if *b == k {
            free = false;
        }
    }
    free
}

// A place before which no byte is k, as there is none before `from`: whole blocks are passed while they are free of it.
fn passed(k: u8, t: &[u8], from: usize) -> usize
    requires { Passed (Other k) t.now from }
    ensures { Passed (Other k) t.now result }
{
    let mut i = from;
    while BLOCK <= t.len() - i {
        if !none(k, &t[i..i + BLOCK]) {
            return i;
        }
        i += BLOCK;
    }
    i
}

// The place of the first byte k, or the length where there is none; before `from` there is none.
fn seek(k: u8, t: &[u8], from: usize) -> usize
    requires { Passed (Other k) t.now from }
    ensures { Until k t.now result }
{
    for i in from..t.len() {
        if t[i] == k {
            return i;
        }
    }
    t.len()
}

// The same of a block and more. A near one is found byte by byte, since most parts of a line are short; then whole blocks are passed.
fn seek_far(k: u8, t: &[u8]) -> usize
    requires { 16 ≤ length t.now }
    ensures { Until k t.now result }
{
    let near = seek(k, &t[..BLOCK], 0);
    if near < BLOCK {
        return near;
    }
    seek(k, t, passed(k, t, BLOCK))
}

// The place of the first byte k, or the length where there is none: every caller cuts `t` there, so an Option would be undone at each.
pub fn until(k: u8, t: &[u8]) -> usize
    ensures { Until k t.now result }
{
    if t.len() < BLOCK {
        return seek(k, t, 0);
    }
    seek_far(k, t)
}

// The place of the first line feed, or the length where there is none. A text that is one short line is looked through here: `until` would cost a call.
pub fn feed(text: &[u8]) -> usize
    ensures { UpTo text.now result }
{
    if text.len() < BLOCK {
        return seek(b'\n', text, 0);
    }
    until(b'\n', text)
}

// The value of a digit's byte, and none of any other byte.
fn value(b: u8) -> Option<u8>
    ensures { Value b result }
{
    match b {
        b'0'..=b'9' => Some(b - b'0'),
        _ => None,
    }
}

// Whether `t` is one or more digits.
pub fn digits(t: &[u8]) -> bool
    ensures { Figured t.now result }
{
    !t.is_empty() && t.iter().all(|b| b.is_ascii_digit())
}

// The count and the space that `b` begins with; none where it begins otherwise.
pub fn begin(b: &[u8]) -> Option<Opening>
    ensures { Opens b.now result }
{
    if b.len() < 2 {
        return None;
    }
    let tens = value(b[0])?;
    if b[1] == b' ' {
        return Some(Opening {
            count: tens as usize,
            start: 2,
        });
    }
    if tens == 0 {
        return None;
    }
    let ones = value(b[1])?;
    if b.len() < 3 || b[2] != b' ' {
        return None;
    }
    Some(Opening {
        count: 10 * tens as usize + ones as usize,
        start: 3,
    })
}

// The form of a line without its line feed; none where it has another.
pub fn form(b: &[u8]) -> Option<Opening>
    ensures { Forms b.now result }
{
    let opening = begin(b)?;
    if !digits(&b[opening.start..]) {
        return None;
    }
    Some(opening)
}

// The digits of a text's first line, which is judged by rows 1, 2, 3 and 5.
pub fn locate(text: &[u8]) -> Result<Span, Refusal>
    ensures { Located size text.now result }
{
    let end = feed(text);
    if end == text.len() {
        return Err(Refusal { row: 1, place: 0 });
    }
    let Some(opening) = form(&text[..end]) else {
        return Err(Refusal { row: 2, place: 0 });
    };
    if opening.count == 0 || SIZE < opening.count {
        return Err(Refusal { row: 3, place: 0 });
    }
    if end - opening.start != opening.count {
        return Err(Refusal { row: 5, place: 0 });
    }
    Ok(Span {
        start: opening.start,
        end,
    })
}

// Written digits as values, to the start of what is lent.
pub fn read_digits(t: &[u8], out: &mut [u8])
    requires figures { WrittenDigits t.now }
    requires room { length t.now ≤ length out.old }
    ensures { out.new ≡ laid_over (values t.now) out.old }
{
    for (i, b) in t.iter().enumerate() {
        out[i] = *b - b'0';
    }
}

// Values as written digits, to the start of what is lent.
pub fn write_digits(code: &[u8], out: &mut [u8])
    requires digits { Digits code.now }
    requires room { length code.now ≤ length out.old }
    ensures { out.new ≡ laid_over (figures code.now) out.old }
{
    for (i, d) in code.iter().enumerate() {
        out[i] = b'0' + *d;
    }
}

// The count of n digits, to the start of what is lent; how many bytes that is.
pub fn write_count(n: usize, out: &mut [u8]) -> usize
    requires few { n ≤ 99 }
    requires room { length (decimal n) ≤ length out.old }
    ensures { Laid (decimal n) out.old out.new result }
{
    if n < 10 {
        out[0] = b'0' + n as u8;
        return 1;
    }
    out[0] = b'0' + (n / 10) as u8;
    out[1] = b'0' + (n % 10) as u8;
    2
}

// The line of a code, to the start of what is lent; how many bytes that is.
pub fn write(code: &[u8], out: &mut [u8]) -> usize
    requires few { length code.now ≤ 99 }
    requires digits { Digits code.now }
    requires room { length (line code.now) ≤ length out.old }
    ensures { Laid (line code.now) out.old out.new result }
{
    let n = code.len();
    let at = write_count(n, out);
    out[at] = b' ';
    write_digits(code, &mut out[at + 1..]);
    out[at + 1 + n] = b'\n';
    at + n + 2
}

// How many bytes the line of n digits takes.
pub fn extent(n: usize) -> usize
    requires { n ≤ 99 }
    ensures { (c : List ℕ) → length c ≡ n → length (line c) ≡ result }
{
    if n < 10 {
        return n + 3;
    }
    n + 4
}

// The digits of a line, as they are written, by their values: row 3 of digits lent by themselves, and the rows of a line's.
fn judge(limit: u8, t: &[u8]) -> Result<(), Refusal>
    requires some { 1 ≤ limit }
    requires figures { WrittenDigits t.now }
    requires few { length t.now ≤ size }
    ensures { Answers (row3 size (length (values t.now)) ∷ judged (digit_table limit) (values t.now)) result }
{
    let mut v = [0u8; SIZE];
    read_digits(t, &mut v);
    centred_check::check(limit, &v[..t.len()])
}

// The first line of a text: its digits as values, to the start of what is lent.
pub fn read_line(limit: u8, text: &[u8], out: &mut [u8]) -> Result<usize, Refusal>
    requires { 1 ≤ limit }
    ensures { LineRead size (plain_lines size (digit_table limit)) text.now out.old out.new (told result) }
{
    let at = locate(text)?;
    let n = at.end - at.start;
    let digits = &text[at.start..at.end];
    judge(limit, digits)?;
    refusal::fits(n, out.len())?;
    read_digits(digits, out);
    Ok(n)
}

// The first line of a text, as a line of an edition.
pub fn read_line_of(edition: usize, text: &[u8], out: &mut [u8]) -> Result<usize, Refusal>
    ensures { LineRead size (lines_of edition) text.now out.old out.new (told result) }
{
    let limit = edition::limit_in(edition)?;
    read_line(limit, text, out)
}

// How many lines there is room for: SIZE bytes, a number and a place for each.
pub fn room(records: usize, numbers: usize, places: usize) -> usize
    ensures { Room size records numbers places result }
{
    (records / SIZE).min(numbers).min(places)
}

// The place behind the line that begins at `at`.
pub fn behind(text: &[u8], at: usize) -> usize
    requires { at < length text.now }
    ensures { Behind text.now at result }
{
    let end = feed(&text[at..]);
    if end == text.len() - at {
        return text.len();
    }
    at + end + 1
}

// Number and place of an answer, for line k.
pub fn note(r: Result<usize, Refusal>, numbers: &mut [u8], places: &mut [usize], k: usize)
    requires k_in_bounds { k < length numbers.old }
    requires k_in_bounds_2 { k < length places.old }
    ensures numbers_after { numbers.new ≡ set numbers.old k (number_of (told r)) }
    ensures places_after { places.new ≡ set places.old k (place_of (told r)) }
{
    match r {
        Ok(n) => {
            numbers[k] = 0;
            places[k] = n;
        }
        Err(refusal) => {
            numbers[k] = refusal.row;
            places[k] = refusal.place;
        }
    }
}

// A text, line after line, as far as there is room.
pub fn read_text(
    edition: usize,
    text: &[u8],
    records: &mut [u8],
    numbers: &mut [u8],
    places: &mut [usize],
) -> Progress
    ensures { TextRead size (lines_of edition)
        text.now records.old numbers.old places.old
        records.new numbers.new places.new result.lines result.at }
{
    let lines = room(records.len(), numbers.len(), places.len());
    let mut at = 0;
    for k in 0..lines {
        if at == text.len() {
            return Progress { lines: k, at };
        }
        let r = read_line_of(
            edition,
            &text[at..],
            &mut records[SIZE * k..SIZE * k + SIZE],
        );
        note(r, numbers, places, k);
        at = behind(text, at);
    }
    Progress { lines, at }
}
