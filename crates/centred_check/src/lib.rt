// Whether a right rooted code is a centred one, tested on its marks alone: nothing is decoded, sorted or copied. The test is `Middle` of
// specs/Middle.antt, and specs/Theorems.antt proves that it is document 01's definition. `ds` are the digits that the marks `code` tell; a
// plain code's marks are its digits, and one slice is lent as both.
#![tactic(auto)]

ghost use Rattle.std.specs.Prelude.{◌≡◌, [], ◌∷◌, ◌++◌, suc, ◌+◌, ◌-◌, ◌≤◌, ◌<◌, length, get_or, drop};
ghost use Rattle.std.specs.Int.{w64};
ghost use Rattle.std.proofs.Common.{Fits};
ghost use Rattle.laws.specs.document.Order.{◌≽◌};
ghost use Rattle.laws.specs.Part.{part};
ghost use Rattle.laws.specs.Tells.{Tells};
ghost use Rattle.refusal.specs.Checks.{Answers};
ghost use Rattle.limits.specs.document.Limits.{size};
ghost use Rattle.digit_code.specs.document.Code.{plain, codes};
ghost use Rattle.digit_code.specs.Digits.{digits};
ghost use Rattle.digit_code.specs.Ends.{Ends};
ghost use Rattle.digit_code.specs.Ordered.{Ordered};
ghost use Rattle.digit_code.specs.Right.{Rightₗ};
ghost use Rattle.digit_code.specs.Compare.{lex, pairs_of, further};
ghost use Rattle.form.specs.document.Form.{IsCentred, form_rows};
ghost use Rattle.form.specs.document.Labelled.{IsCentredₗ, row14ₗ};
ghost use Rattle.centred_check.specs.Kinds.{kinds, unit};
ghost use Rattle.centred_check.specs.Middle.{top, rest, turned, branch, Middle};
ghost use Rattle.centred_check.specs.Skip.{Skips};
ghost use Rattle.centred_check.specs.Stack.{Branches};
ghost use Rattle.centred_check.specs.Placed.{Placed, Joins};
ghost use Rattle.centred_check.specs.Scan.{Scan, Scanned};
ghost use Rattle.centred_check.specs.Spot.{Spot};

use digit_code::{Order, compare};
use limits::{ATOMS, SIZE};
use refusal::Refusal;

// Places for where the trees on the stack begin, one for each, and one more for where the digits end.
pub const STARTS: usize = SIZE + 1;

// How far the mark of a vertex with one child more is from a mark.
fn step(named: bool) -> u8
    ensures { result ≡ unit named }
{
    if named { ATOMS } else { 1 }
}

// Where the codes that begin at digit `from` end, so many of them. `open` counts the places that are still to be filled.
fn skip(ds: &[u8], from: usize, many: usize) -> usize
    requires ends { Ends 1 ds.now }
    requires from_in_bounds { from ≤ length ds.now }
    requires many_in_bounds { many ≤ length (codes plain (drop from ds.now)) }
    ensures { Skips plain ds.now from many result }
{
    let mut open = many;
    let mut i = from;
    while 0 < open {
        open = open - 1 + ds[i] as usize;
        i += 1;
    }
    i
}

// Whether the code from a to b stands at or after the one from b to e.
fn falls_at(code: &[u8], a: usize, b: usize, e: usize) -> bool
    requires a_lt_b { a < b }
    requires b_lt_e { b < e }
    requires e_in_bounds { e ≤ length code.now }
    ensures { Tells (part a b code.now ≽ part b e code.now) result }
{
    let x = code[a];
    let y = code[b];
    if x != y {
        return y < x;
    }
    digit_code::falls(&code[a + 1..b], &code[b + 1..e])
}

// How tall a mark's tree is whose children are the trees from `at` to `end`; none where one of them is larger than the one before it.
fn joined(named: bool, code: &[u8], hs: &[u8], starts: &[u8], at: usize, end: usize) -> Option<u8>
    requires placed { Placed (kinds named).arity code.now starts.now (get_or starts.now at 0) at }
    requires at_le_end { at ≤ end }
    requires end_le_size { end ≤ size }
    requires hs_len { length hs.now ≡ size }
    requires hs_bound { top (part at end hs.now) ≤ size }
    ensures { Joins (kinds named).arity code.now hs.now (get_or starts.now at 0) at end result }
{
    if end <= at {
        return Some(1);
    }
    let mut best = hs[end - 1];
    for j in (at..end - 1).rev() {
        let a = starts[j] as usize;
        let b = starts[j + 1] as usize;
        let e = starts[j + 2] as usize;
        if !falls_at(code, a, b, e) {
            return None;
        }
        best = best.max(hs[j]);
    }
    Some(best + 1)
}

// Whether the marks are a right code, where all but the root's are read.
fn rooted(
    named: bool,
    limit: u8,
    ds: &[u8],
    code: &[u8],
    hs: &[u8],
    starts: &[u8],
    at: usize,
) -> bool
    requires ds_value { ds.now ≡ digits (kinds named).arity code.now }
    requires scan { Scan (kinds named) (λ m. limit) code.now hs.now starts.now 1 at }
    requires code_len_bound { length code.now ≤ size }
    ensures { Tells (Rightₗ (kinds named).arity (λ m. limit) size code.now) result }
{
    let k = ds[0];
    k <= limit && at + k as usize == SIZE && joined(named, code, hs, starts, at, SIZE).is_some()
}

// Reads the marks from the last to the first. The trees behind a mark stand on a stack that grows down from the end of `hs` and `starts`:
// how tall each is, and where it begins. The result is where the root's branches stand; none where the marks are no right code.
pub fn scan(
    named: bool,
    limit: u8,
    ds: &[u8],
    code: &[u8],
    hs: &mut [u8],
    starts: &mut [u8],
) -> Option<usize>
    requires ds_value { ds.now ≡ digits (kinds named).arity code.now }
    requires le_limit { 1 ≤ limit }
    requires hs_len { length hs.old ≡ size }
    requires starts_len { length starts.old ≡ suc size }
    ensures { Scanned (kinds named) (λ m. limit) code.now hs.new result }
{
    let n = code.len();
    if n == 0 || SIZE < n {
        return None;
    }
    starts[SIZE] = n as u8;
    let mut at = SIZE;
    for i in (1..n).rev() {
        let k = ds[i];
        if limit <= k {
            return None;
        }
        let end = at + k as usize;
        if SIZE < end {
            return None;
        }
        let h = joined(named, code, hs, starts, at, end)?;
        at = end - 1;
        hs[at] = h;
        starts[at] = i as u8;
    }
    if !rooted(named, limit, ds, code, hs, starts, at) {
        return None;
    }
    Some(at)
}

// The same answer, n pairs later.
fn later(n: usize, o: Order) -> Order
    requires { Fits w64 (n + pairs_of o) }
    ensures { result ≡ further n o }
{
    match o {
        Order::Less(k) => Order::Less(n + k),
        Order::Equal(k) => Order::Equal(n + k),
        Order::Greater(k) => Order::Greater(n + k),
    }
}

// A code against one that lies in two parts.
fn compare_two(u: &[u8], a: &[u8], b: &[u8]) -> Order
    ensures { result ≡ lex u.now (a.now ++ b.now) }
{
    let n = a.len();
    if u.len() < n {
        return compare(u, a);
    }
    match compare(&u[..n], a) {
        Order::Equal(k) => later(k, compare(&u[n..], b)),
        o => o,
    }
}

// A code against one that lies in three parts.
fn compare_three(u: &[u8], a: &[u8], b: &[u8], d: &[u8]) -> Order
    ensures { result ≡ lex u.now (a.now ++ (b.now ++ d.now)) }
{
    let n = a.len();
    if u.len() < n {
        return compare(u, a);
    }
    match compare(&u[..n], a) {
        Order::Equal(k) => later(k, compare_two(&u[n..], b, d)),
        o => o,
    }
}

// Whether what is left where the branch from x to e is taken off stands at or after the code from y to z.
fn covers(named: bool, code: &[u8], x: usize, e: usize, y: usize, z: usize) -> bool
    requires le_x { 1 ≤ x }
    requires x_lt_y { x < y }
    requires y_lt_z { y < z }
    requires z_in_bounds { z ≤ length code.now }
    requires e_in_bounds { e ≤ length code.now }
    requires bound { 1 ≤ (kinds named).arity (get_or code.now 0 0) }
    ensures { Tells (rest (kinds named) code.now x e ≽ part y z code.now) result }
{
    let left = code[0] - step(named);
    let child = code[y];
    if left != child {
        return child < left;
    }
    !matches!(
        compare_two(&code[y + 1..z], &code[1..x], &code[e..]),
        Order::Greater(_)
    )
}

// Where what is left is put among the children of x: before the first that it stands at or after.
fn spot(named: bool, ds: &[u8], code: &[u8], x: usize, e: usize) -> usize
    requires ds_value { ds.now ≡ digits (kinds named).arity code.now }
    requires ends { Ends 1 ds.now }
    requires le_x { 1 ≤ x }
    requires x_in_bounds { x < length code.now }
    requires skips { Skips (kinds named).arity code.now x 1 e }
    requires bound { 1 ≤ (kinds named).arity (get_or code.now 0 0) }
    ensures { Spot (kinds named) code.now x e result }
{
    let mut y = x + 1;
    for m in 0..ds[x] {
        let z = skip(ds, y, 1);
        if covers(named, code, x, e, y, z) {
            return y;
        }
        y = z;
    }
    y
}

// Whether the marks from y - x on stand at or after what is left, with the children from y to e behind it.
fn over_rest(named: bool, code: &[u8], x: usize, y: usize, e: usize) -> bool
    requires le_x { 1 ≤ x }
    requires x_lt_y { x < y }
    requires y_le_e { y ≤ e }
    requires e_in_bounds { e ≤ length code.now }
    requires bound { 1 ≤ (kinds named).arity (get_or code.now 0 0) }
    ensures { Tells (drop (y - x) code.now ≽ (rest (kinds named) code.now x e ++ part y e code.now)) result }
{
    let left = code[0] - step(named);
    let here = code[y - x];
    if here != left {
        return left < here;
    }
    !matches!(
        compare_three(&code[y - x + 1..], &code[1..x], &code[e..], &code[y..e]),
        Order::Less(_)
    )
}

// Whether the marks behind the root stand at or after those behind x in the code at x.
fn over(named: bool, code: &[u8], x: usize, y: usize, e: usize) -> bool
    requires le_x { 1 ≤ x }
    requires x_lt_y { x < y }
    requires y_le_e { y ≤ e }
    requires e_in_bounds { e ≤ length code.now }
    requires bound { 1 ≤ (kinds named).arity (get_or code.now 0 0) }
    ensures { Tells (drop 1 code.now ≽ (part (suc x) y code.now ++ (rest (kinds named) code.now x e ++ part y e code.now))) result }
{
    match compare(&code[1..y - x], &code[x + 1..y]) {
        Order::Less(_) => false,
        Order::Equal(_) => over_rest(named, code, x, y, e),
        Order::Greater(_) => true,
    }
}

// Whether the code is not smaller than the one at the root of branch p.
fn above(named: bool, ds: &[u8], code: &[u8], p: usize) -> bool
    requires ds_value { ds.now ≡ digits (kinds named).arity code.now }
    requires ends { Ends 1 ds.now }
    requires p_in_bounds { p < length (codes (kinds named).arity (drop 1 code.now)) }
    ensures { Tells (code.now ≽ turned (kinds named) code.now (branch (kinds named) code.now p) (branch (kinds named) code.now (suc p))) result }
{
    let x = skip(ds, 1, p);
    let left = code[0] - step(named);
    let there = code[x];
    if left != there {
        return there < left;
    }
    let e = skip(ds, x, 1);
    let y = spot(named, ds, code, x, e);
    over(named, code, x, y, e)
}

// Whether the root is in the centre with no larger code there: by its two tallest branches, whose heights stand from `from` on.
fn middle(named: bool, ds: &[u8], code: &[u8], hs: &[u8], from: usize) -> bool
    requires ds_value { ds.now ≡ digits (kinds named).arity code.now }
    requires ends { Ends 1 ds.now }
    requires branches { Branches (kinds named) code.now hs.now from }
    ensures { Tells (Middle (kinds named) code.now) result }
{
    let mut first = 0;
    let mut next: u8 = 0;
    let mut at = hs.len();
    for j in (from..hs.len()).rev() {
        let h = hs[j];
        if h < first {
            next = next.max(h);
        } else {
            next = first;
            first = h;
            at = j;
        }
    }
    first == next || (first - 1 == next && above(named, ds, code, at - from))
}

// 14: a right code, whose branches' heights stand from `from` on, that is not the centred one.
pub fn judged(named: bool, ds: &[u8], code: &[u8], hs: &[u8], from: usize) -> Result<(), Refusal>
    requires ds_value { ds.now ≡ digits (kinds named).arity code.now }
    requires ends { Ends 1 ds.now }
    requires ordered { Ordered (kinds named).arity code.now }
    requires branches { Branches (kinds named) code.now hs.now from }
    ensures { Answers (row14ₗ (kinds named) (IsCentredₗ (kinds named)) code.now ∷ []) result }
{
    if middle(named, ds, code, hs, from) {
        return Ok(());
    }
    Err(Refusal { row: 14, place: 0 })
}

// Digits lent by themselves that are to be a centred code: 3, 10 to 13, and 14. Which of 3 to 13 a wrong code has is looked for again.
pub fn check(limit: u8, code: &[u8]) -> Result<(), Refusal>
    requires { 1 ≤ limit }
    ensures { Answers (form_rows IsCentred size limit code.now) result }
{
    let mut hs = [0u8; SIZE];
    let mut starts = [0u8; STARTS];
    let Some(from) = scan(false, limit, code, code, &mut hs, &mut starts) else {
        return digit_code::check(limit, code);
    };
    judged(false, code, code, &hs, from)
}
