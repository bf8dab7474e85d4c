// The codes of an accepted edge list: rooted at a vertex, N-tuple and centred; its edges in the numbering by code. Each tells how many pairs were
// looked at to put siblings in order. Whether digits are an N-tuple code.
//
// Marks of digit and atom are compared. `atoms` has the rank of each vertex's atom; a plain code is that of the skeleton whose vertices are all
// carbon, and its digits are what the marks tell.
#![tactic(auto)]

ghost use Rattle.std.specs.Prelude.{◌≡◌, List, [], ◌∷◌, map, ℕ, ◌≤◌, ◌<◌, length, get_or, take, set};
ghost use Rattle.laws.specs.document.Once.{Once};
ghost use Rattle.laws.specs.document.Laid.{laid_over};
ghost use Rattle.refusal.specs.document.Table.{Writes};
ghost use Rattle.refusal.specs.Checks.{Answers};
ghost use Rattle.limits.specs.document.Limits.{size};
ghost use Rattle.limits.specs.Width.{width};
ghost use Rattle.digit_code.specs.document.Code.{decode};
ghost use Rattle.digit_code.specs.Ends.{Ends};
ghost use Rattle.skeleton.specs.document.Skeleton as tree;
ghost use Rattle.skeleton.specs.document.Label.{rootedₗ, digits, labels};
ghost use Rattle.skeleton.specs.document.AtomMarks as names;
ghost use Rattle.skeleton.specs.document.Atom.{Atom};
ghost use Rattle.skeleton.specs.Carbon.{carbon_mark};
ghost use Rattle.letters.specs.Named.{Named, Ranked};
ghost use Rattle.edge_list.specs.Table.{IsTable, Held};
ghost use Rattle.numbering.specs.document.Pairs.{rooted_pairs};
ghost use Rattle.numbering.specs.Numbers as numbers;
ghost use Rattle.longest_path.specs.document.Path.{IsCentre};
ghost use Rattle.form.specs.document.Form.{IsNTuple, IsCentred, row14_form, form_rows};
ghost use Rattle.form.specs.document.Labelled.{IsNTupleₗ, IsCentredₗ, row14ₗ};
ghost use Rattle.form_coder.specs.document.Pairs.{OverMiddles, OverWidest, CentredPairs, NTuplePairs};
ghost use Rattle.form_coder.specs.Numbered.{Numbered, Numberedₗ, Counts, ByPlace};
ghost use Rattle.form_coder.specs.Raised.{Raised, MaximumDegree};

use centre::Middles;
use edge_list::Table;
use limits::{ATOMS, BYTES, ENDS, SIZE};
use refusal::Refusal;

// The first n marks become their digits.
fn read_digits(marks: &mut [u8], n: usize)
    requires { n ≤ length marks.old }
    ensures { marks.new ≡ laid_over (digits names.atoms (take n marks.old)) marks.old }
{
    for mark in &mut marks[..n] {
        *mark /= ATOMS;
    }
}

// The marks of the rooted code at a vertex.
pub fn rooted_marks(
    n: usize,
    edges: &[u8],
    atoms: &[u8; SIZE],
    root: usize,
    out: &mut [u8],
) -> usize
    requires skeleton { tree.IsSkeleton size width n edges.now × Ranked n atoms.now }
    requires le_root { (1 ≤ root) × (root ≤ n) × (n ≤ length out.old) }
    ensures { (label : ℕ → Atom) → Named n label atoms.now
        → Writes (λ c. c ≡ rootedₗ names.atoms label n edges.now root) out.old n out.new
        × (result ≡ numbers.pairsₗ names.atoms label n edges.now root) }
{
    let mut table = Table::new();
    table.fill(n, edges);
    let mut order = [0u8; SIZE];
    rooted_coder::rooted(&table, atoms, n, root, &mut order, out)
}

// The rooted code at a vertex.
pub fn rooted(n: usize, edges: &[u8], root: usize, out: &mut [u8]) -> usize
    requires skeleton { tree.IsSkeleton size width n edges.now }
    requires le_root { (1 ≤ root) × (root ≤ n) × (n ≤ length out.old) }
    ensures writes { Writes (λ c. c ≡ tree.rooted n edges.now root) out.old n out.new }
    ensures value { result ≡ rooted_pairs n edges.now root }
{
    let carbon = [0u8; SIZE];
    let looked = rooted_marks(n, edges, &carbon, root, out);
    read_digits(out, n);
    looked
}

// The larger of the first n marks of two codes is left in the first. Whether it is the second's.
fn raise(best: &mut [u8], other: &[u8], n: usize) -> bool
    requires { (n ≤ length best.old) × (n ≤ length other.now) }
    ensures { Raised n best.old other.now best.new result }
{
    if digit_code::falls(&best[..n], &other[..n]) {
        return false;
    }
    copying::copy(&other[..n], best);
    true
}

// The middle vertices, the lower number first.
fn middles(table: &Table, n: usize) -> Middles
    requires { Held n table.now.rows table.now.degs }
    ensures first_le_second { result.first ≤ result.second }
    ensures by_index { (E : List ℕ) → tree.IsTree n E → IsTable n E table.now.rows table.now.degs → IsCentre n E result.first result.second }
{
    let m = centre::centre(table, n);
    Middles {
        first: m.first.min(m.second),
        second: m.first.max(m.second),
    }
}

// The marks of the centred code, and the vertex of each. Of two middle vertices with equal codes the one of the lower number is the root.
pub fn numbered_marks(
    n: usize,
    edges: &[u8],
    atoms: &[u8; SIZE],
    order: &mut [u8; SIZE],
    out: &mut [u8],
) -> usize
    requires skeleton { tree.IsSkeleton size width n edges.now × Ranked n atoms.now }
    requires order_len { (length order.old ≡ size) × (n ≤ length out.old) }
    ensures order_len_2 { length order.new ≡ size }
    ensures by_index { (label : ℕ → Atom) → Named n label atoms.now
        → Writes (Numberedₗ label n edges.now (take n order.new)) out.old n out.new
        × OverMiddles n edges.now (numbers.pairsₗ names.atoms label n edges.now) result }
{
    let mut table = Table::new();
    table.fill(n, edges);
    let m = middles(&table, n);
    let u = m.first;
    let v = m.second;
    let mut looked = rooted_coder::rooted(&table, atoms, n, u, order, out);
    if u != v {
        let mut its = [0u8; SIZE];
        let mut other = [0u8; SIZE];
        looked += rooted_coder::rooted(&table, atoms, n, v, &mut its, &mut other);
        if raise(out, &other, n) {
            copying::copy(&its, order);
        }
    }
    looked
}

// The marks of the centred code, and beside them their digits.
pub fn centred_marks(
    n: usize,
    edges: &[u8],
    atoms: &[u8; SIZE],
    ds: &mut [u8],
    out: &mut [u8],
) -> usize
    requires skeleton { tree.IsSkeleton size width n edges.now × Ranked n atoms.now }
    requires n_in_bounds { (n ≤ length ds.old) × (n ≤ length out.old) }
    ensures ds_after { take n ds.new ≡ digits names.atoms (take n out.new) }
    ensures by_index { (label : ℕ → Atom) → Named n label atoms.now
        → Writes (IsCentredₗ names.atoms n edges.now label) out.old n out.new
        × OverMiddles n edges.now (numbers.pairsₗ names.atoms label n edges.now) result }
{
    let mut order = [0u8; SIZE];
    let looked = numbered_marks(n, edges, atoms, &mut order, out);
    copying::copy(&out[..n], ds);
    read_digits(ds, n);
    looked
}

// The centred code, and the vertex of each digit.
pub fn numbered(n: usize, edges: &[u8], order: &mut [u8; SIZE], out: &mut [u8]) -> usize
    requires skeleton { tree.IsSkeleton size width n edges.now }
    requires order_len { (length order.old ≡ size) × (n ≤ length out.old) }
    ensures order_len_2 { length order.new ≡ size }
    ensures writes { Writes (Numbered n edges.now (take n order.new)) out.old n out.new }
    ensures centred_pairs { CentredPairs n edges.now result }
{
    let carbon = [0u8; SIZE];
    let looked = numbered_marks(n, edges, &carbon, order, out);
    read_digits(out, n);
    looked
}

// The centred code.
pub fn centred(n: usize, edges: &[u8], out: &mut [u8]) -> usize
    requires skeleton { tree.IsSkeleton size width n edges.now }
    requires n_in_bounds { n ≤ length out.old }
    ensures writes { Writes (IsCentred n edges.now) out.old n out.new }
    ensures centred_pairs { CentredPairs n edges.now result }
{
    let mut order = [0u8; SIZE];
    numbered(n, edges, &mut order, out)
}

// Writes the number k at v.
fn put(numbers: &mut [u8; BYTES], v: u8, k: usize)
    requires { k ≤ size }
    ensures { (numbers.new ≡ set numbers.old v k) × (v < 256) }
{
    numbers[usize::from(v)] = k as u8;
}

// Writes at each of the first n of `order` its place, 1 for the first.
fn number(order: &[u8; SIZE], n: usize, numbers: &mut [u8; BYTES])
    requires { (n ≤ size) × (length order.now ≡ size) × Once (take n order.now) × (length numbers.old ≡ 256) }
    ensures { Counts order.now n numbers.new }
{
    for (i, v) in order[..n].iter().enumerate() {
        put(numbers, *v, i + 1);
    }
}

// The edges in the numbering by code, each end where it stands.
pub fn by_code(n: usize, edges: &[u8], out: &mut [u8]) -> usize
    requires skeleton { tree.IsSkeleton size width n edges.now }
    requires edges_in_bounds { length edges.now ≤ length out.old }
    ensures writes { Writes (ByPlace n edges.now) out.old (length edges.now) out.new }
    ensures centred_pairs { CentredPairs n edges.now result }
{
    let mut order = [0u8; SIZE];
    let mut code = [0u8; SIZE];
    let looked = numbered(n, edges, &mut order, &mut code);
    let mut numbers = [0u8; BYTES];
    number(&order, n, &mut numbers);
    rooted_coder::read(&numbers, edges, edges.len(), out);
    looked
}

// The greatest degree.
fn widest(table: &Table, n: usize) -> u8
    requires { (length table.now.degs ≡ size) × (n ≤ size) }
    ensures { MaximumDegree table.now.degs n result }
{
    table.degs[..n].iter().copied().max().unwrap_or(0)
}

// The marks of the N-tuple code.
pub fn n_tuple_marks(n: usize, edges: &[u8], atoms: &[u8; SIZE], out: &mut [u8]) -> usize
    requires skeleton { tree.IsSkeleton size width n edges.now × Ranked n atoms.now }
    requires n_in_bounds { n ≤ length out.old }
    ensures { (label : ℕ → Atom) → Named n label atoms.now
        → Writes (IsNTupleₗ names.atoms n edges.now label) out.old n out.new
        × OverWidest n edges.now (numbers.pairsₗ names.atoms label n edges.now) result }
{
    let mut table = Table::new();
    table.fill(n, edges);
    let d = widest(&table, n);
    let mut best = [0u8; SIZE];
    let mut other = [0u8; SIZE];
    let mut order = [0u8; SIZE];
    let mut looked = 0;
    for (v, k) in table.degs[..n].iter().enumerate() {
        if *k == d {
            looked += rooted_coder::rooted(&table, atoms, n, v + 1, &mut order, &mut other);
            raise(&mut best, &other, n);
        }
    }
    copying::copy(&best[..n], out);
    looked
}

// The N-tuple code.
pub fn n_tuple(n: usize, edges: &[u8], out: &mut [u8]) -> usize
    requires skeleton { tree.IsSkeleton size width n edges.now }
    requires n_in_bounds { n ≤ length out.old }
    ensures writes { Writes (IsNTuple n edges.now) out.old n out.new }
    ensures n_tuple_pairs { NTuplePairs n edges.now result }
{
    let carbon = [0u8; SIZE];
    let looked = n_tuple_marks(n, edges, &carbon, out);
    read_digits(out, n);
    looked
}

// The atoms that marks tell.
fn read_atoms(code: &[u8], atoms: &mut [u8; SIZE])
    requires { (length code.now ≤ size) × (length atoms.old ≡ size) }
    ensures { Named (length code.now) (labels names.atoms code.now) atoms.new }
{
    for (i, mark) in code.iter().enumerate() {
        atoms[i] = *mark % ATOMS;
    }
}

// 14: a rooted code that is not the N-tuple code of what it tells. `ds` are the digits of the marks `code`.
pub fn n_tuple_judged(ds: &[u8], code: &[u8]) -> Result<(), Refusal>
    requires ds_value { ds.now ≡ digits names.atoms code.now }
    requires ends { Ends 1 ds.now × tree.IsSkeleton size width (length code.now) (decode ds.now) }
    ensures { Answers (row14ₗ names.atoms (IsNTupleₗ names.atoms) code.now ∷ []) result }
{
    let n = code.len();
    let mut edges = [0u8; ENDS];
    let mut atoms = [0u8; SIZE];
    let mut own = [0u8; SIZE];
    let m = digit_code::write_edges(ds, &mut edges);
    read_atoms(code, &mut atoms);
    n_tuple_marks(n, &edges[..m], &atoms, &mut own);
    if code != &own[..n] {
        return Err(Refusal { row: 14, place: 0 });
    }
    Ok(())
}

// The marks of digits, where every vertex is carbon.
fn write_marks(ds: &[u8], marks: &mut [u8; SIZE])
    requires ds_len_bound { (length ds.now ≤ size) × (length marks.old ≡ size) }
    requires by_index { (i : ℕ) → i < length ds.now → get_or ds.now i 0 ≤ width }
    ensures { marks.new ≡ laid_over (map carbon_mark ds.now) marks.old }
{
    for (i, d) in ds.iter().enumerate() {
        marks[i] = ATOMS * *d;
    }
}

// The same of digits alone.
fn judged(code: &[u8]) -> Result<(), Refusal>
    requires ends { Ends 1 code.now × tree.IsSkeleton size width (length code.now) (decode code.now) }
    requires by_index { (i : ℕ) → i < length code.now → get_or code.now i 0 ≤ width }
    ensures { Answers (row14_form IsNTuple code.now ∷ []) result }
{
    let n = code.len();
    let mut marks = [0u8; SIZE];
    write_marks(code, &mut marks);
    n_tuple_judged(code, &marks[..n])
}

// Digits lent by themselves that are to be an N-tuple code: 3, 10 to 13, and 14.
pub fn check_n_tuple(limit: u8, code: &[u8]) -> Result<(), Refusal>
    requires { (1 ≤ limit) × (limit ≤ width) }
    ensures { Answers (form_rows IsNTuple size limit code.now) result }
{
    digit_code::check(limit, code)?;
    judged(code)
}
