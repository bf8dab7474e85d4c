// Equal vertices: the class of each vertex of a centred code of marks, one for two vertices where a renumbering of the skeleton onto itself that
// keeps the atoms carries one to the other, numbered by first appearance. A vertex other than the root is told by its parent's class and its subtree
// code, the root by the two halves of the code.
#![tactic(auto)]

ghost use Rattle.std.specs.Prelude.{◌≡◌, suc, ◌≤◌, ◌<◌, length, take};
ghost use Rattle.laws.specs.document.Laid.{Laid};
ghost use Rattle.laws.specs.Tells.{Tells};
ghost use Rattle.limits.specs.document.Limits.{size};
ghost use Rattle.digit_code.specs.Ends.{Ends};
ghost use Rattle.digit_code.specs.Parts.{Ending};
ghost use Rattle.digit_code.specs.Search.{Known};
ghost use Rattle.skeleton.specs.document.Label.{digits};
ghost use Rattle.skeleton.specs.document.AtomMarks.{atoms};
ghost use Rattle.skeleton.specs.Label.{IsRootedₗ};
ghost use Rattle.orbits.specs.Found.{class_of};
ghost use Rattle.orbits.specs.Parents.{subtreeₗ};
ghost use Rattle.orbits.specs.Half.{restₗ};
ghost use Rattle.orbits.specs.Classes.{classesₗ};
ghost use Rattle.vertices.specs.Search.{Above, Turns, Test, test?};

use digit_code::{ends_of, write_edges};
use limits::{ATOMS, ENDS, SIZE};

// Whether the part of mark v, which ends before mark b, is what the code is without it: as long, the root's mark with one child fewer, and then mark
// by mark. What stands before the part is held against the part's first marks, what stands behind it against its last.
fn halves(code: &[u8], v: usize, b: usize) -> bool
    requires ends { Ends 1 (digits atoms code.now) }
    requires le_v { 1 ≤ v }
    requires ending { Ending atoms.arity code.now v b }
    ensures { Tells (subtreeₗ atoms code.now (suc v) ≡ restₗ atoms code.now (suc v)) result }
{
    let n = code.len();
    if b - v != n - (b - v) || code[v] != code[0] - ATOMS {
        return false;
    }
    let w = v + v;
    code[v + 1..w] == code[1..v] && code[w..b] == code[b..n]
}

// Whether the root is like the vertex of mark v: a child of its own, and the skeleton can be turned over there.
fn turns(code: &[u8], ends: &[u8], edges: &[u8], v: usize) -> bool
    requires known { Known atoms.arity code.now ends.now 0 }
    requires above { Above code.now edges.now }
    requires le_v { (1 ≤ v) × (v < length code.now) }
    ensures { Tells (Turns code.now (suc v)) result }
{
    edges[v + v - 2] == 1 && halves(code, v, ends[v] as usize)
}

// Whether the vertex of mark u, which is not the root, is like that of mark v behind it: their parents are of one class, and their subtree codes
// equal. Codes of different lengths are told apart unread. Of others the first marks are held against one another before a slice is made, since most that
// come so far are leaves, and `==` of slices is dear.
fn alike(code: &[u8], ends: &[u8], edges: &[u8], known: &[u8], u: usize, v: usize) -> bool
    requires known { Known atoms.arity code.now ends.now 0 }
    requires above { Above code.now edges.now }
    requires le_u { (1 ≤ u) × (u < v) × (v < length code.now) }
    requires v_in_bounds { v ≤ length known.now }
    ensures { Tells (Test code.now (take v known.now) (suc u) (suc v)) result }
{
    let p = edges[u + u - 2] as usize;
    let q = edges[v + v - 2] as usize;
    if known[p - 1] != known[q - 1] {
        return false;
    }
    let a = ends[u] as usize;
    let b = ends[v] as usize;
    if a - u != b - v || code[u] != code[v] {
        return false;
    }
    a == u + 1 || code[u + 1..a] == code[v + 1..b]
}

// The class of the first vertex before that of mark v which is like it; `new` where there is none.
fn class_of(code: &[u8], ends: &[u8], edges: &[u8], known: &[u8], v: usize, new: u8) -> u8
    requires known { Known atoms.arity code.now ends.now 0 }
    requires above { Above code.now edges.now }
    requires v_in_bounds { v < length code.now }
    requires v_in_bounds_2 { v ≤ length known.now }
    ensures { result ≡ class_of (test? code.now (take v known.now)) (suc v) new 1 (take v known.now) }
{
    if v == 0 {
        return new;
    }
    if turns(code, ends, edges, v) {
        return known[0];
    }
    for u in 1..v {
        if alike(code, ends, edges, known, u, v) {
            return known[u];
        }
    }
    new
}

// The class of each vertex of a rooted code, from the start of the output; how many there are. `ds` are the digits of the marks `code`.
pub fn write_classes(ds: &[u8], code: &[u8], out: &mut [u8]) -> usize
    requires ds_value { ds.now ≡ digits atoms code.now }
    requires fact { IsRootedₗ atoms code.now }
    requires code_len_bound { length code.now ≤ size }
    requires code_in_bounds { length code.now ≤ length out.old }
    ensures { Laid (classesₗ atoms ds.now code.now) out.old out.new result }
{
    let mut ends = [0u8; SIZE];
    ends_of(ds, &mut ends);
    let mut edges = [0u8; ENDS];
    write_edges(ds, &mut edges);
    let mut top = 0;
    for i in 0..code.len() {
        let k = class_of(code, &ends, &edges, out, i, top + 1);
        out[i] = k;
        top = top.max(k);
    }
    code.len()
}
