// Whether digits with an atom letter for each are a centred code: what is refused of them, in the order of the table. Marks are made of digits and
// letters in one pass, and a right code is told by `centred_check` in another; only what is none is looked at row by row.
#![tactic(auto)]

ghost use Rattle.std.specs.Prelude.{◌≡◌, [], ◌∷◌, ◌++◌, ◌≤◌, length, take, OnOk};
ghost use Rattle.refusal.specs.document.Table.{Clear, row3};
ghost use Rattle.refusal.specs.Checks.{Answers};
ghost use Rattle.limits.specs.document.Limits.{size, valence};
ghost use Rattle.digit_code.specs.Digits.{digits};
ghost use Rattle.skeleton.specs.document.Label.{row20};
ghost use Rattle.skeleton.specs.document.Atom.{bonds};
ghost use Rattle.skeleton.specs.document.AtomMarks.{atoms};
ghost use Rattle.form.specs.document.Labelled.{IsCentredₗ, row14ₗ};
ghost use Rattle.lettered_check.specs.document.Lettered.{marks_of, named_digit_rows, lettered_code_rows, lettered_form_rows};
ghost use Rattle.letters.specs.document.Letters.{row2-letters, row21-letters};
ghost use Rattle.laws.specs.document.Each.{Each};
ghost use Rattle.laws.specs.document.Laid.{laid_over};
ghost use Rattle.laws.specs.Tells.{Tells};
ghost use Rattle.lettered_check.specs.Rows.{lettered_rows, Low, Made};

use centred_check::{STARTS, judged, scan};
use limits::{ATOMS, BONDS, SIZE, VALENCE};
use refusal::Refusal;

// 20: a digit above what its mark's atom allows, at the root one more; those behind the code's end too.
fn bonded(ds: &[u8], code: &[u8]) -> Result<(), Refusal>
    requires { ds.now ≡ digits atoms.arity code.now }
    ensures { Answers (row20 atoms bonds code.now ∷ []) result }
{
    for p in 1..=code.len() {
        let limit = BONDS - code[p - 1] % ATOMS;
        if digit_code::top(limit, p) < ds[p - 1] {
            return Err(Refusal { row: 20, place: p });
        }
    }
    Ok(())
}

// 10, 20 and 11 to 13, looked for in this order.
fn refused(ds: &[u8], code: &[u8]) -> Result<(), Refusal>
    requires ds_value { ds.now ≡ digits atoms.arity code.now }
    requires ds_len_bound { length ds.now ≤ size }
    ensures { Answers (named_digit_rows valence ds.now code.now) result }
{
    digit_code::capped(VALENCE, ds)?;
    bonded(ds, code)?;
    digit_code::ended(ds)?;
    digit_code::ordered_marks(true, ds, code)
}

// Digits and their marks that are to be a centred code, where 20 does not apply: 10, 11 to 13, and 14.
fn check_marks(ds: &[u8], code: &[u8]) -> Result<(), Refusal>
    requires ds_value { ds.now ≡ digits atoms.arity code.now }
    requires in_bounds { 1 ≤ length ds.now }
    requires ds_len_bound { length ds.now ≤ size }
    requires clear { Clear (row20 atoms bonds code.now ∷ []) }
    ensures { Answers (named_digit_rows valence ds.now code.now ++ (row14ₗ atoms (IsCentredₗ atoms) code.now ∷ [])) result }
{
    let mut hs = [0u8; SIZE];
    let mut starts = [0u8; STARTS];
    let Some(from) = scan(true, VALENCE, ds, code, &mut hs, &mut starts) else {
        return refused(ds, code);
    };
    judged(true, ds, code, &hs, from)
}

// How digits stand to the limits of their letters.
#[derive(Clone, Copy)]
enum Caps {
    // A digit is above VALENCE, and there are no marks.
    High,
    // One is above what its atom allows.
    Crowded,
    // None is.
    Kept,
}

// Whether no digit is above VALENCE. All are looked at, so that the machine can compare many at once.
fn low(ds: &[u8]) -> bool
    ensures { Tells (Each Low ds.now) result }
{
    let mut all = true;
    for k in ds {
        if VALENCE < *k {
            all = false;
        }
    }
    all
}

// The marks of such digits and of letters, to the start of what is lent; whether no digit is above what its atom allows.
fn mark(ds: &[u8], letters: &[u8], out: &mut [u8]) -> bool
    requires letters_len { length letters.now ≡ length ds.now }
    requires ds_in_bounds { length ds.now ≤ length out.old }
    requires each { Each Low ds.now }
    ensures out_after { out.new ≡ laid_over (marks_of ds.now letters.now) out.old }
    ensures tells { Tells (Clear (row20 atoms bonds (marks_of ds.now letters.now) ∷ [])) result }
{
    let mut kept = true;
    for (i, k) in ds.iter().enumerate() {
        let r = letters::ranked(letters[i]);
        if digit_code::top(BONDS - r, i + 1) < *k {
            kept = false;
        }
        out[i] = ATOMS * *k + r;
    }
    kept
}

// The marks of digits and letters, to the start of what is lent, unless a digit is above VALENCE.
fn marks(ds: &[u8], letters: &[u8], out: &mut [u8]) -> Caps
    requires letters_len { length letters.now ≡ length ds.now }
    requires ds_in_bounds { length ds.now ≤ length out.old }
    ensures { Made ds.now letters.now out.old out.new result }
{
    if !low(ds) {
        return Caps::High;
    }
    if mark(ds, letters, out) {
        return Caps::Kept;
    }
    Caps::Crowded
}

// Digits with a letter for each that are to be a centred code: 3, 10, 20, 11 to 13, and 14.
pub fn check(ds: &[u8], letters: &[u8]) -> Result<(), Refusal>
    requires { length letters.now ≡ length ds.now }
    ensures { Answers (row3 size (length ds.now) ∷ lettered_rows valence ds.now letters.now) result }
{
    refusal::sized(ds.len(), SIZE)?;
    let mut ms = [0u8; SIZE];
    match marks(ds, letters, &mut ms) {
        Caps::High => digit_code::capped(VALENCE, ds),
        Caps::Crowded => refused(ds, &ms[..ds.len()]),
        Caps::Kept => check_marks(ds, &ms[..ds.len()]),
    }
}

// 2, 3 and 21 of digits and letters that are lent by themselves.
fn lent(ds: &[u8], letters: &[u8]) -> Result<(), Refusal>
    ensures { Answers (row2-letters letters.now ∷ row3 size (length ds.now) ∷ row21-letters (length ds.now) letters.now ∷ []) result }
{
    letters::known(letters)?;
    refusal::sized(ds.len(), SIZE)?;
    letters::as_many(ds.len(), letters)
}

// Digits and letters lent by themselves that are to be a rooted code: 2, 3, 21, 10, 20, and 11 to 13. Where none applies, their marks are
// written from the start of what is lent.
pub fn check_rooted(ds: &[u8], letters: &[u8], ms: &mut [u8]) -> Result<(), Refusal>
    requires { size ≤ length ms.old }
    ensures answers { Answers (lettered_code_rows size valence ds.now letters.now) result }
    ensures ms_after { OnOk result (take (length ds.now) ms.new ≡ marks_of ds.now letters.now) }
{
    lent(ds, letters)?;
    match marks(ds, letters, ms) {
        Caps::High => digit_code::capped(VALENCE, ds),
        Caps::Crowded => refused(ds, &ms[..ds.len()]),
        Caps::Kept => refused(ds, &ms[..ds.len()]),
    }
}

// The same where the marks are not asked for.
pub fn check_code(ds: &[u8], letters: &[u8]) -> Result<(), Refusal>
    ensures { Answers (lettered_code_rows size valence ds.now letters.now) result }
{
    let mut ms = [0u8; SIZE];
    check_rooted(ds, letters, &mut ms)
}

// Digits and letters lent by themselves that are to be a centred code: 2, 3, 21, 10, 20, 11 to 13, and 14.
pub fn check_centred(ds: &[u8], letters: &[u8]) -> Result<(), Refusal>
    ensures { Answers (lettered_form_rows (IsCentredₗ atoms) size valence ds.now letters.now) result }
{
    lent(ds, letters)?;
    check(ds, letters)
}
