// The vertices of a skeleton in the order of its rooted code, written into a buffer by recursion over rooted subtrees, and how many pairs of
// marks were looked at on the way.
#![tactic(auto)]

ghost use Rattle.std.specs.Prelude.{◌≡◌, List, ◌++◌, ℕ, ◌+◌, ◌-◌, ◌*◌, ◌≤◌, ◌<◌, length, get_or, set, take, drop};
ghost use Rattle.laws.specs.Part.{part};
ghost use Rattle.laws.specs.document.Laid.{laid_over};
ghost use Rattle.limits.specs.document.Limits.{size};
ghost use Rattle.limits.specs.Width.{width};
ghost use Rattle.digit_code.specs.Compare.{lex};
ghost use Rattle.skeleton.specs.document.Skeleton as tree;
ghost use Rattle.skeleton.specs.document.Label.{rootedₗ};
ghost use Rattle.skeleton.specs.document.AtomMarks as names;
ghost use Rattle.skeleton.specs.document.Atom.{Atom};
ghost use Rattle.letters.specs.Named.{Named, Ranked};
ghost use Rattle.edge_list.specs.Table.{IsTable, Held};
ghost use Rattle.numbering.specs.Numbers as numbers;
ghost use Rattle.numbering.specs.document.Order as orders;
ghost use Rattle.rooted_coder.specs.Ordered.{marked, mark_of, cell, kids, ordered, Rows, Stand, Standing, Spot, met, Exchanged, Waits, Waiting, Settles, end_of, Arranges, Several, Hangs, Covers, Small, Fills, Placed};

use digit_code::Order;
use edge_list::{Table, wide};
use limits::{ATOMS, BYTES, SIZE, WIDTH};

// A place in the buffer, and how many pairs were looked at to find it.
#[derive(Clone, Copy)]
struct Sought {
    at: usize,
    looked: usize,
}

fn mark(marks: &[u8; BYTES], v: u8) -> u8
    ensures { result ≡ mark_of marks.now v }
{
    marks[v as usize]
}

// Compares two parts by their marks, up to the first pair that differs.
fn compare(marks: &[u8; BYTES], a: &[u8], b: &[u8]) -> Order
    ensures { result ≡ lex (marked marks.now a.now) (marked marks.now b.now) }
{
    for (i, v) in a.iter().enumerate() {
        if b.len() <= i {
            return Order::Greater(i);
        }
        let x = mark(marks, *v);
        let y = mark(marks, b[i]);
        if x < y {
            return Order::Less(i + 1);
        }
        if y < x {
            return Order::Greater(i + 1);
        }
    }
    if a.len() < b.len() {
        return Order::Less(a.len());
    }
    Order::Equal(a.len())
}

// Copies the part of `src` from `a` up to `e` into `dst`, at `at`.
fn transfer(src: &[u8], a: usize, e: usize, dst: &mut [u8], at: usize)
    requires { (a ≤ e) × (e ≤ length src.now) × (at + (e - a) ≤ length dst.old) }
    ensures { dst.new ≡ take at dst.old ++ (part a e src.now ++ drop (at + (e - a)) dst.old) }
{
    let to = at + (e - a);
    copying::copy(&src[a..e], &mut dst[at..to]);
}

// Exchanges two neighbours, the part from `a` up to `m` and the part from `m` up to `b`, by way of another buffer.
fn turned(s: &mut [u8], held: &mut [u8], a: usize, m: usize, b: usize)
    requires { (a ≤ m) × (m ≤ b) × (b ≤ length s.old) × (b ≤ length held.old) }
    ensures { Exchanged s.old a m b s.new }
{
    let n = m - a;
    let e = b - a;
    transfer(s, a, b, held, 0);
    transfer(held, n, e, s, a);
    transfer(held, 0, n, s, a + (b - m));
}

// The same, by way of a buffer of its own. `rotate_left` has one of 4,096 bytes, which is half of the stack that a call may touch.
fn exchange(s: &mut [u8], a: usize, m: usize, b: usize)
    requires { (a ≤ m) × (m ≤ b) × (b ≤ length s.old) × (b ≤ size) }
    ensures { Exchanged s.old a m b s.new }
{
    let mut held = [0u8; SIZE];
    turned(s, &mut held, a, m, b);
}

// Where the part from `m` up to `b` belongs among the parts from `f` up to `m`: before the first that is smaller. It is compared with each of
// them. `lens` has the length of each where it begins.
fn seek(marks: &[u8; BYTES], s: &[u8], lens: &[u8], f: usize, m: usize, b: usize) -> Sought
    requires standing { Standing s.now lens.now f m }
    requires m_le_b { (m ≤ b) × (b ≤ length s.now) × (m ≤ length lens.now) }
    ensures at_le_m { (result.at ≤ m) × (result.looked + f ≤ m) }
    ensures by_index { (p q : List ℕ) (L : List (List ℕ)) → Stand s.now lens.now f m p L q
        → Spot (marked marks.now) f L (part m b s.now) result.at
        × (result.looked ≡ met (marked marks.now) (part m b s.now) L) }
{
    let mut x = f;
    let mut at = m;
    let mut looked = 0;
    while x < m {
        let a = x;
        x += wide(lens[a]);
        match compare(marks, &s[a..x], &s[m..b]) {
            Order::Less(n) => {
                looked += n;
                if at == m {
                    at = a;
                }
            }
            Order::Equal(n) => {
                looked += n;
            }
            Order::Greater(n) => {
                looked += n;
            }
        }
    }
    Sought { at, looked }
}

// Where the part that begins at `at` ends.
fn end(lens: &[u8; SIZE], at: usize) -> usize
    requires { at < size }
    ensures { result ≡ end_of lens.now at }
{
    at + wide(lens[at])
}

// Moves the part that begins at `m` to its place among the parts from `f` up to `m`.
fn settle(
    marks: &[u8; BYTES],
    out: &mut [u8; SIZE],
    lens: &mut [u8; SIZE],
    f: usize,
    m: usize,
) -> usize
    requires out_len { (length out.old ≡ size) × (length lens.old ≡ size) }
    requires waiting { Waiting out.old lens.old f m }
    ensures out_len_2 { (length out.new ≡ size) × (length lens.new ≡ size) × (result ≤ size) }
    ensures by_index { (p : List ℕ) (L : List (List ℕ)) (c q : List ℕ) → Waits out.old lens.old f m p L c q
        → Settles (marked marks.now) lens.old out.new lens.new f m p L c q result }
{
    let b = end(lens, m);
    let z = seek(marks, out, lens, f, m, b);
    let at = z.at;
    if at < m {
        exchange(out, at, m, b);
        exchange(lens, at, m, b);
    }
    z.looked
}

// Puts the parts behind what stands at `at` in order, largest first: each is settled among those before it. There is at least one.
#[inline(never)]
fn arrange(marks: &[u8; BYTES], out: &mut [u8; SIZE], lens: &mut [u8; SIZE], at: usize) -> usize
    requires out_len { (length out.old ≡ size) × (length lens.old ≡ size) }
    requires standing { Standing out.old lens.old (at + 1) (end_of lens.old at) × (at + 1 < end_of lens.old at) }
    ensures out_len_2 { (length out.new ≡ size) × (length lens.new ≡ size) × (result ≤ size * size) }
    ensures by_index { (i : ℕ) → i ≤ at → get_or lens.new i 0 ≡ get_or lens.old i 0 }
    ensures by_index_2 { (p q : List ℕ) (L : List (List ℕ)) → Stand out.old lens.old (at + 1) (end_of lens.old at) p L q
        → Arranges (marked marks.now) out.new p L q result }
{
    let f = at + 1;
    let e = end(lens, at);
    let mut m = end(lens, f);
    let mut looked = 0;
    while m < e {
        let b = end(lens, m);
        looked += settle(marks, out, lens, f, m);
        m = b;
    }
    looked
}

// What stands at `at`.
fn vertex(out: &[u8; SIZE], at: usize) -> usize
    requires { at < size }
    ensures { result ≡ get_or out.now at 0 }
{
    wide(out[at])
}

// What stands in column j of the row of v.
fn neighbour(table: &Table, v: usize, j: usize) -> usize
    requires { (1 ≤ v) × (v ≤ size) × (j < width) }
    ensures { result ≡ cell table.now.rows v j }
{
    wide(table.rows[v - 1][j])
}

// Writes w at `m`, a part of its own.
fn lay(out: &mut [u8; SIZE], lens: &mut [u8; SIZE], m: usize, w: usize)
    requires m_lt_size { (m < size) × (w ≤ size) }
    requires out_len { (length out.old ≡ size) × (length lens.old ≡ size) }
    ensures { (out.new ≡ set out.old m w) × (lens.new ≡ set lens.old m 1) }
{
    out[m] = w as u8;
    lens[m] = 1;
}

// Whether there are several parts behind what stands at `at`: the first of them is not all of them.
fn several(lens: &[u8; SIZE], at: usize) -> bool
    requires { (at < size) × (end_of lens.now at ≤ size) }
    ensures { Several lens.now at result }
{
    let n = wide(lens[at]);
    n > 2 && wide(lens[at + 1]) < n - 1
}

// Takes the part that begins where the one at `at` ends into it.
fn extend(lens: &mut [u8; SIZE], at: usize)
    requires { (length lens.old ≡ size) × (end_of lens.old at < size) × (end_of lens.old (end_of lens.old at) ≤ at + size) }
    ensures { lens.new ≡ set lens.old at (get_or lens.old at 0 + get_or lens.old (end_of lens.old at) 0) }
{
    let m = end(lens, at);
    let n = lens[m];
    lens[at] += n;
}

// Writes what hangs at the vertex that stands at `at`, whose parent is `parent`: the parts of its children one behind the other, each in
// its order. Each child's part is asked for first, further behind in the buffer, so at each call fewer vertices are left; its own
// children's parts are then put in order. Returns how many pairs were looked at.
fn order(
    table: &Table,
    marks: &[u8; BYTES],
    out: &mut [u8; SIZE],
    lens: &mut [u8; SIZE],
    parent: usize,
    at: usize,
) -> usize
    requires out_len { (length out.old ≡ size) × (length lens.old ≡ size) × (get_or lens.old at 0 ≡ 1) }
    requires rows { Rows table.now.rows (get_or out.old at 0) }
    requires at_bound { at + length (ordered marks.now table.now.rows parent (get_or out.old at 0)) ≤ size }
    ensures { Hangs marks.now table.now.rows out.old lens.old out.new lens.new
        (get_or out.old at 0) at (kids table.now.rows parent (get_or out.old at 0)) result }
{
    let v = vertex(out, at);
    let mut looked = 0;
    for j in 0..WIDTH {
        let w = neighbour(table, v, j);
        if w == 0 {
            return looked;
        }
        if w != parent {
            let m = end(lens, at);
            lay(out, lens, m, w);
            if neighbour(table, w, 1) != 0 {
                looked += order(table, marks, out, lens, v, m);
                let q = end(lens, at);
                if several(lens, q) {
                    looked += arrange(marks, out, lens, q);
                }
            }
            extend(lens, at);
        }
    }
    looked
}

// Writes what hangs at `root`, which has no parent, in its order from the start of the buffer. Returns how many pairs were looked at.
fn cover(table: &Table, marks: &[u8; BYTES], root: usize, out: &mut [u8; SIZE]) -> usize
    requires rows { Rows table.now.rows root }
    requires out_len { (length out.old ≡ size) × (length (ordered marks.now table.now.rows 0 root) ≤ size) }
    ensures { Covers marks.now table.now.rows root out.new result }
{
    let mut lens = [0u8; SIZE];
    lay(out, &mut lens, 0, root);
    let looked = order(table, marks, out, &mut lens, 0, 0);
    if several(&lens, 0) {
        return looked + arrange(marks, out, &mut lens, 0);
    }
    looked
}

// The mark of a vertex with k children.
fn written(k: u8, atom: u8) -> u8
    requires { (k ≤ width) × (atom < 3) }
    ensures { result ≡ 3 * k + atom }
{
    ATOMS * k + atom
}

// Writes the mark of each vertex at its number: three times its digit, and its atom. The digit is how many neighbours it has, and but for the
// root all but one.
fn fill(table: &Table, atoms: &[u8; SIZE], n: usize, root: usize, marks: &mut [u8; BYTES])
    requires { (1 ≤ root) × (root ≤ n) × (n ≤ size) × (size < length marks.old) × Small table.now.degs atoms.now n }
    ensures { Fills table.now.degs atoms.now root n marks.new }
{
    for v in 0..n {
        let k = table.degs[v].saturating_sub(1);
        marks[v + 1] = written(k, atoms[v]);
    }
    marks[root] = written(table.degs[root - 1], atoms[root - 1]);
}

// Writes the mark of each of the first n of `s` from the start of `out`.
pub fn read(marks: &[u8; BYTES], s: &[u8], n: usize, out: &mut [u8])
    requires { (n ≤ length s.now) × (n ≤ length out.old) }
    ensures { out.new ≡ laid_over (marked marks.now (take n s.now)) out.old }
{
    for (i, v) in s[..n].iter().enumerate() {
        out[i] = mark(marks, *v);
    }
}

// Fills in the marks, and writes the vertices in the order of the rooted code at `root` from the start of the buffer.
fn vertices(
    table: &Table,
    atoms: &[u8; SIZE],
    n: usize,
    root: usize,
    marks: &mut [u8; BYTES],
    buffer: &mut [u8; SIZE],
) -> usize
    requires held { Held n table.now.rows table.now.degs × Ranked n atoms.now }
    requires le_root { (1 ≤ root) × (root ≤ n) × (size < length marks.old) × (length buffer.old ≡ size) }
    ensures buffer_len { length buffer.new ≡ size }
    ensures by_index { (E : List ℕ) (label : ℕ → Atom) → tree.IsTree n E → IsTable n E table.now.rows table.now.degs → Named n label atoms.now
        → Placed names.atoms label n E root marks.new buffer.new result }
{
    fill(table, atoms, n, root, marks);
    cover(table, marks, root, buffer)
}

// Writes the marks of the rooted code at `root` of the skeleton of n vertices whose table and atoms are given, and into `order` the vertex of
// each. Returns how many pairs of marks were looked at, where every two siblings were compared once.
pub fn rooted(
    table: &Table,
    atoms: &[u8; SIZE],
    n: usize,
    root: usize,
    order: &mut [u8; SIZE],
    out: &mut [u8],
) -> usize
    requires held { Held n table.now.rows table.now.degs × Ranked n atoms.now }
    requires le_root { (1 ≤ root) × (root ≤ n) × (length order.old ≡ size) × (n ≤ length out.old) }
    ensures order_len { length order.new ≡ size }
    ensures by_index { (E : List ℕ) (label : ℕ → Atom) → tree.IsTree n E → IsTable n E table.now.rows table.now.degs → Named n label atoms.now
        → (take n order.new ≡ orders.orderₗ names.atoms label n E root) × (out.new ≡ laid_over (rootedₗ names.atoms label n E root) out.old)
        × (result ≡ numbers.pairsₗ names.atoms label n E root) }
{
    let mut marks = [0u8; BYTES];
    let looked = vertices(table, atoms, n, root, &mut marks, order);
    read(&marks, order, n, out);
    looked
}
