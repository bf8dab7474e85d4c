// The listing: an answer to each line of a text and then the totals, as document 01 has them written. What it is stands in
// specs/document/Listing.antt. It is handed out in pieces: it is put together from its start, number by number, and a window goes along, into
// which falls what is asked for.
#![tactic(auto)]

ghost use Rattle.std.specs.Prelude.{◌≡◌, [], ◌∷◌, ◌++◌, ◌≤◌, length};
ghost use Rattle.limits.specs.document.Limits.{size};
ghost use Rattle.refusal.specs.document.Outcome.{told};
ghost use Rattle.lines.specs.document.Judged.{digit_table};
ghost use Rattle.named_lines.specs.document.Named.{lines_of_named, named_table};
ghost use Rattle.listing_text.specs.document.Listing.{longest, numeral, answer_line, totals as listing_totals, ListsOf, Lists};
ghost use Rattle.listing_text.specs.Window.{Puts};
ghost use Rattle.listing_text.specs.Steps.{lines_of_kind, Allowed, Replied, is_record, Spelt};

use limits::SIZE;
use refusal::Refusal;

// Which lines a text has.
#[derive(Clone, Copy)]
pub enum Kind {
    // plain ones, where a vertex may have so many neighbours
    Plain(u8),
    // named ones
    Named,
}

// How far the window is: so many bytes are still to be passed over, and so many lie in what is lent.
#[derive(Clone, Copy)]
struct Window {
    skip: usize,
    done: usize,
}

// Puts bytes behind those that were put: what of them falls into the window is written.
fn put(bytes: &[u8], w: Window, out: &mut [u8]) -> Window
    ensures { Puts bytes.now out.old w.skip w.done out.new result.skip result.done }
{
    let Window { skip, done } = w;
    let n = bytes.len();
    if n <= skip {
        return Window {
            skip: skip - n,
            done,
        };
    }
    if out.len() <= done {
        return Window { skip: 0, done };
    }
    let end = n.min(skip + (out.len() - done));
    copying::copy(&bytes[skip..end], &mut out[done..]);
    Window {
        skip: 0,
        done: done + (end - skip),
    }
}

// A number in decimal and the byte behind it, to the end of what is lent; where it begins there.
fn spell(n: usize, last: u8, out: &mut [u8; 32]) -> usize
    requires { length out.old ≡ 32 }
    ensures { Spelt (numeral n ++ (last ∷ [])) out.new result }
{
    out[31] = last;
    let mut at = 31;
    let mut rest = n;
    while 10 <= rest {
        at -= 1;
        out[at] = b'0' + (rest % 10) as u8;
        rest /= 10;
    }
    at -= 1;
    out[at] = b'0' + rest as u8;
    at
}

// Puts a number and the byte behind it.
fn number(n: usize, last: u8, w: Window, out: &mut [u8]) -> Window
    ensures { Puts (numeral n ++ (last ∷ [])) out.old w.skip w.done out.new result.skip result.done }
{
    let mut digits = [0u8; 32];
    let start = spell(n, last, &mut digits);
    put(&digits[start..], w, out)
}

// Puts the line for an answer: line number, refusal number and place, both 0 for a record.
fn answer(a: Result<usize, Refusal>, line: usize, w: Window, out: &mut [u8]) -> Window
    ensures { Puts (answer_line line (told a)) out.old w.skip w.done out.new result.skip result.done }
{
    let v = number(line, b' ', w, out);
    match a {
        Ok(_) => put(b"0 0\n", v, out),
        Err(refusal) => {
            let u = number(refusal.row as usize, b' ', v, out);
            number(refusal.place, b'\n', u, out)
        }
    }
}

// Puts the totals.
fn totals(read: usize, refused: usize, w: Window, out: &mut [u8]) -> Window
    ensures { Puts (listing_totals read refused) out.old w.skip w.done out.new result.skip result.done }
{
    let a = put(b"read ", w, out);
    let b = number(read, b' ', a, out);
    let c = put(b"refused ", b, out);
    number(refused, b'\n', c, out)
}

// The answer to a text's first line, as a plain line.
fn first_plain(limit: u8, text: &[u8]) -> Result<usize, Refusal>
    requires { 1 ≤ limit }
    ensures { Replied (lines_of_kind (Kind.Plain limit)) text.now (told result) }
{
    let mut digits = [0u8; SIZE];
    lines::read_line(limit, text, &mut digits)
}

// The answer to a text's first line, as a named line.
fn first_named(text: &[u8]) -> Result<usize, Refusal>
    ensures { Replied (lines_of_kind Kind.Named) text.now (told result) }
{
    let mut digits = [0u8; SIZE];
    let mut letters = [0u8; SIZE];
    named_lines::read_line(text, &mut digits, &mut letters)
}

// The answer to a text's first line.
fn first(kind: Kind, text: &[u8]) -> Result<usize, Refusal>
    requires { Allowed kind }
    ensures { Replied (lines_of_kind kind) text.now (told result) }
{
    match kind {
        Kind::Plain(limit) => first_plain(limit, text),
        Kind::Named => first_named(text),
    }
}

// 1 for a record, and 0 for a refusal.
fn is_record(a: Result<usize, Refusal>) -> usize
    ensures { result ≡ is_record (told a) }
{
    match a {
        Ok(_) => 1,
        Err(_) => 0,
    }
}

// The listing of a text that is not too long.
fn list_lines(kind: Kind, text: &[u8], from: usize, out: &mut [u8]) -> usize
    requires text_len_bound { length text.now ≤ longest }
    requires allowed { Allowed kind }
    ensures { ListsOf (lines_of_kind kind).format text.now out.old out.new from result }
{
    let mut w = Window {
        skip: from,
        done: 0,
    };
    let mut at = 0;
    let mut line = 0;
    let mut read = 0;
    while at < text.len() {
        let a = first(kind, &text[at..]);
        line += 1;
        w = answer(a, line, w, out);
        read += is_record(a);
        at = lines::behind(text, at);
    }
    let end = totals(read, line - read, w, out);
    end.done
}

// The listing of a text from byte `from` on, as much as there is room for; how many bytes that is.
pub fn list_kind(kind: Kind, text: &[u8], from: usize, out: &mut [u8]) -> usize
    requires { Allowed kind }
    ensures { ListsOf (lines_of_kind kind).format text.now out.old out.new from result }
{
    if 65536 < text.len() {
        let w = Window {
            skip: from,
            done: 0,
        };
        let end = put(b"input too long\n", w, out);
        return end.done;
    }
    list_lines(kind, text, from, out)
}

// The listing of a text of plain lines, where a vertex may have `limit` neighbours.
pub fn list(limit: u8, text: &[u8], from: usize, out: &mut [u8]) -> usize
    requires { 1 ≤ limit }
    ensures { Lists size (digit_table limit) text.now out.old out.new from result }
{
    list_kind(Kind::Plain(limit), text, from, out)
}

// The listing of a text of named lines.
pub fn list_named(text: &[u8], from: usize, out: &mut [u8]) -> usize
    ensures { ListsOf (lines_of_named size named_table) text.now out.old out.new from result }
{
    list_kind(Kind::Named, text, from, out)
}
