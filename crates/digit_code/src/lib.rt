// Rooted digit codes: the comparer, the check of a digit code, and decoding.
#![tactic(auto)]

ghost use Rattle.std.specs.Prelude.{◌≡◌, [], ◌∷◌, suc, ◌+◌, ◌≤◌, ◌<◌, length};
ghost use Rattle.refusal.specs.Checks.{Answers};
ghost use Rattle.laws.specs.document.Laid.{Laid};
ghost use Rattle.laws.specs.document.Order.{◌≽◌};
ghost use Rattle.laws.specs.Tells.{Tells};
ghost use Rattle.limits.specs.document.Limits.{size};
ghost use Rattle.digit_code.specs.document.Code.{plain, cap, row10, row11, row12, row13, code_rows, decode};
ghost use Rattle.digit_code.specs.Digits.{digits};
ghost use Rattle.digit_code.specs.Ends.{Ends};
ghost use Rattle.digit_code.specs.Parts.{Ending};
ghost use Rattle.digit_code.specs.Stack.{Pushed};
ghost use Rattle.digit_code.specs.Compare.{lex};
ghost use Rattle.digit_code.specs.Search.{Known, FirstOf};
ghost use Rattle.digit_code.specs.Two.{arity_of};

use limits::SIZE;
use refusal::Refusal;

// How one code stands to another in the dictionary, and how many pairs of digits were looked at to tell. std's `Ordering` has no place for that number.
#[derive(Clone, Copy)]
pub enum Order {
    Less(usize),
    Equal(usize),
    Greater(usize),
}

// Two codes, each where it stands: parts of a code buffer that may start in its middle. They are compared up to the first pair that differs.
pub fn compare(a: &[u8], b: &[u8]) -> Order
    ensures { result ≡ lex a.now b.now }
{
    for (i, x) in a.iter().enumerate() {
        if b.len() <= i {
            return Order::Greater(i);
        }
        let y = b[i];
        if *x < y {
            return Order::Less(i + 1);
        }
        if y < *x {
            return Order::Greater(i + 1);
        }
    }
    if a.len() < b.len() {
        return Order::Less(a.len());
    }
    Order::Equal(a.len())
}

// Whether a stands at or after b in the dictionary.
pub fn falls(a: &[u8], b: &[u8]) -> bool
    ensures { Tells (a.now ≽ b.now) result }
{
    match compare(a, b) {
        Order::Less(_) => false,
        Order::Equal(_) => true,
        Order::Greater(_) => true,
    }
}

// The most that digit number p may be, where a vertex may have `limit` neighbours.
pub fn top(limit: u8, p: usize) -> u8
    requires { 1 ≤ limit }
    ensures { result ≡ cap limit p }
{
    if p <= 1 { limit } else { limit - 1 }
}

// 10: a digit above its cap, those behind the code's end too.
pub fn capped(limit: u8, code: &[u8]) -> Result<(), Refusal>
    requires { 1 ≤ limit }
    ensures { Answers (row10 limit code.now ∷ []) result }
{
    for (i, k) in code.iter().enumerate() {
        if top(limit, i + 1) < *k {
            return Err(Refusal {
                row: 10,
                place: i + 1,
            });
        }
    }
    Ok(())
}

// 11 and 12: the code ends before the digits do, or not at all. `open` counts the places that are still to be filled.
pub fn ended(code: &[u8]) -> Result<(), Refusal>
    requires { length code.now ≤ size }
    ensures { Answers (row11 code.now ∷ row12 code.now ∷ []) result }
{
    let mut open: usize = 1;
    for (i, k) in code.iter().enumerate() {
        open = open - 1 + *k as usize;
        if open == 0 {
            if i + 1 < code.len() {
                return Err(Refusal {
                    row: 11,
                    place: i + 2,
                });
            }
            return Ok(());
        }
    }
    Err(Refusal {
        row: 12,
        place: code.len(),
    })
}

// Where the part that begins at digit i ends, from where those behind it do.
fn end_of(code: &[u8], ends: &[u8], i: usize) -> usize
    requires known { Known plain code.now ends.now (suc i) }
    requires i_in_bounds { i < length code.now }
    ensures { Ending plain code.now i result }
{
    let mut e = i + 1;
    for _ in 0..code[i] {
        e = ends[e] as usize;
    }
    e
}

// Where each part ends.
pub fn ends_of(code: &[u8], ends: &mut [u8])
    requires ends { Ends 1 code.now }
    requires code_len_bound { length code.now ≤ size }
    requires ends_len { length ends.old ≡ size }
    ensures { Known plain code.now ends.new 0 }
{
    for i in (0..code.len()).rev() {
        ends[i] = end_of(code, ends, i) as u8;
    }
}

// The first mark of the first child of mark i that is larger than the sibling before it, by the mark's number.
fn larger_of(named: bool, ds: &[u8], ms: &[u8], ends: &[u8], i: usize) -> Option<usize>
    requires ds_value { ds.now ≡ digits (arity_of named) ms.now }
    requires known { Known (arity_of named) ms.now ends.now 0 }
    requires i_in_bounds { i < length ms.now }
    ensures { FirstOf (arity_of named) ms.now (suc i) result }
{
    let mut a = i + 1;
    for _ in 1..ds[i] {
        let b = ends[a] as usize;
        let e = ends[b] as usize;
        if !falls(&ms[a..b], &ms[b..e]) {
            return Some(b + 1);
        }
        a = b;
    }
    None
}

// 13: a child's code larger than that of the sibling before it, where the digits `ds` tell the parts and the marks `ms` are compared.
pub fn ordered_marks(named: bool, ds: &[u8], ms: &[u8]) -> Result<(), Refusal>
    requires ds_value { ds.now ≡ digits (arity_of named) ms.now }
    requires ends { Ends 1 ds.now }
    requires ds_len_bound { length ds.now ≤ size }
    ensures { Answers (row13 (arity_of named) ms.now ∷ []) result }
{
    let mut ends = [0u8; SIZE];
    ends_of(ds, &mut ends);
    let mut best: Option<usize> = None;
    for i in 0..ms.len() {
        if let Some(p) = larger_of(named, ds, ms, &ends, i) {
            best = Some(best.unwrap_or(p).min(p));
        }
    }
    match best {
        Some(p) => Err(Refusal { row: 13, place: p }),
        None => Ok(()),
    }
}

// The same of a plain code, whose marks are its digits.
pub fn ordered(code: &[u8]) -> Result<(), Refusal>
    requires ends { Ends 1 code.now }
    requires code_len_bound { length code.now ≤ size }
    ensures { Answers (row13 plain code.now ∷ []) result }
{
    ordered_marks(false, code, code)
}

// A digit code lent by itself: 3, 10, 11, 12 and 13.
pub fn check(limit: u8, code: &[u8]) -> Result<(), Refusal>
    requires { 1 ≤ limit }
    ensures { Answers (code_rows size limit code.now) result }
{
    refusal::sized(code.len(), SIZE)?;
    capped(limit, code)?;
    ended(code)?;
    ordered(code)
}

// v put k times on top of the open places, of which there are t; how many there are then. Of a `for` over the places the compiler makes a call of memset, for nine at most,
// which costs the deepest of the decoders 64 bytes of stack.
pub fn push(places: &mut [u8], t: usize, v: u8, k: u8) -> usize
    requires { t + k ≤ length places.old }
    ensures { Pushed places.old places.new t v k result }
{
    let mut r = t;
    for _ in 0..k {
        places[r] = v;
        r += 1;
    }
    r
}

// The edges (parent, child) of digits that end, for child 2 to N, from the start of the output; how many bytes they are.
pub fn write_edges(code: &[u8], out: &mut [u8]) -> usize
    requires ends { Ends 1 code.now }
    requires code_len_bound { length code.now ≤ size }
    requires code_in_bounds { length (decode code.now) ≤ length out.old }
    ensures { Laid (decode code.now) out.old out.new result }
{
    let mut places = [0u8; SIZE];
    let mut t = push(&mut places, 0, 1, code[0]);
    let mut at = 0;
    for i in 1..code.len() {
        t -= 1;
        let p = places[t];
        let v = (i + 1) as u8;
        out[at] = p;
        out[at + 1] = v;
        t = push(&mut places, t, v, code[i]);
        at += 2;
    }
    at
}
