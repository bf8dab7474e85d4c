// Letters that name atoms, a byte for each vertex: what is refused of them by themselves, the atoms that they name, and the letters and digits of marks.
#![tactic(auto)]

ghost use Rattle.std.specs.Prelude.{◌≡◌, [], ◌∷◌, ◌-◌, ◌≤◌, length};
ghost use Rattle.laws.specs.Tells.{Tells};
ghost use Rattle.refusal.specs.Checks.{Answers};
ghost use Rattle.limits.specs.document.Limits.{size};
ghost use Rattle.skeleton.specs.document.Atom.{rank, named, bonds, letter, Letter, atom_of, atom_at};
ghost use Rattle.skeleton.specs.document.AtomMarks.{atoms};
ghost use Rattle.skeleton.specs.document.Label.{digits};
ghost use Rattle.laws.specs.document.Laid.{laid_over};
ghost use Rattle.letters.specs.document.Letters.{letters_of, row2-letters, row21-letters, row14_atom};
ghost use Rattle.letters.specs.Named.{Named};

use limits::{ATOMS, BONDS, SIZE};
use refusal::Refusal;

// Whether b is C, N or O.
pub fn is_letter(b: u8) -> bool
    ensures { Tells (Letter b) result }
{
    b == b'C' || b == b'N' || b == b'O'
}

// 2: a byte that is none of them.
pub fn known(letters: &[u8]) -> Result<(), Refusal>
    ensures { Answers (row2-letters letters.now ∷ []) result }
{
    for b in letters {
        if !is_letter(*b) {
            return Err(Refusal { row: 2, place: 0 });
        }
    }
    Ok(())
}

// 21: how many there are.
pub fn as_many(n: usize, letters: &[u8]) -> Result<(), Refusal>
    ensures { Answers (row21-letters n letters.now ∷ []) result }
{
    if letters.len() != n {
        return Err(Refusal { row: 21, place: 0 });
    }
    Ok(())
}

// The rank of a letter's atom. A byte that is no letter stands for carbon.
pub fn ranked(letter: u8) -> u8
    ensures { result ≡ rank (atom_of letter) }
{
    if letter == b'N' {
        return 1;
    }
    if letter == b'O' {
        return 2;
    }
    0
}

// How many neighbours the atom of vertex v may have.
pub fn bonds_at(letters: &[u8], v: usize) -> u8
    ensures { (result ≡ bonds (atom_at letters.now v)) × (result ≤ 4) }
{
    let i = v.saturating_sub(1);
    if letters.len() <= i {
        return BONDS;
    }
    BONDS - ranked(letters[i])
}

// The atoms that letters name, one for each vertex.
pub fn name(letters: &[u8], atoms: &mut [u8; SIZE])
    requires { (length letters.now ≤ size) × (length atoms.old ≡ size) }
    ensures { Named (length letters.now) (atom_at letters.now) atoms.new }
{
    for (i, letter) in letters.iter().enumerate() {
        atoms[i] = ranked(*letter);
    }
}

// 14 of a form that takes carbon only: the first letter of another atom.
pub fn carbon(letters: &[u8]) -> Result<(), Refusal>
    ensures { Answers (row14_atom letters.now ∷ []) result }
{
    for (i, letter) in letters.iter().enumerate() {
        if ranked(*letter) != 0 {
            return Err(Refusal {
                row: 14,
                place: i + 1,
            });
        }
    }
    Ok(())
}

// The letter of an atom's rank.
fn lettered(rank: u8) -> u8
    ensures { result ≡ letter (named rank) }
{
    if rank == 0 {
        return b'C';
    }
    if rank == 1 {
        return b'N';
    }
    b'O'
}

// The digits of marks, to the start of what is lent.
pub fn write_digits(marks: &[u8], out: &mut [u8])
    requires { length marks.now ≤ length out.old }
    ensures { out.new ≡ laid_over (digits atoms marks.now) out.old }
{
    for (i, mark) in marks.iter().enumerate() {
        out[i] = *mark / ATOMS;
    }
}

// The letters of marks, to the start of what is lent.
pub fn write_letters(marks: &[u8], out: &mut [u8])
    requires { length marks.now ≤ length out.old }
    ensures { out.new ≡ laid_over (letters_of marks.now) out.old }
{
    for (i, mark) in marks.iter().enumerate() {
        out[i] = lettered(*mark % ATOMS);
    }
}
