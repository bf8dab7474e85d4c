// Renumberings as maps, one byte for each vertex of the first list: its number in the second. A map that is lent is judged, and one is handed out.
//
// Entries and edges count from 1, as the places of the refusals do. Both lists have been accepted by `edge_list::check`. Vertices have atoms, which a map
// keeps; a plain list's are all carbon.
#![tactic(auto)]

ghost use Rattle.std.specs.Prelude.{◌≡◌, ℕ, ◌≤◌, length};
ghost use mathlib.Core.List.{[], ◌∷◌, Memᴰ};
ghost use Rattle.laws.specs.Tells.{Tells};
ghost use Rattle.refusal.specs.document.Outcome.{told};
ghost use Rattle.refusal.specs.Checks.{Answers};
ghost use Rattle.limits.specs.document.Limits.{size};
ghost use Rattle.limits.specs.Width.{width};
ghost use Rattle.skeleton.specs.document.Skeleton.{Arc, arcs, IsSkeleton};
ghost use Rattle.skeleton.specs.document.Atom.{Atom};
ghost use Rattle.edge_list.specs.document.Edges.{Edge};
ghost use Rattle.letters.specs.Named.{rank_at, Named, Ranked};
ghost use Rattle.renumber.specs.document.Map.{Entry, image, Repeats, EdgeSent, row5_map, row19, map_rows};
ghost use Rattle.renumber.specs.document.Kept.{row18-kept, kept_rows};
ghost use Rattle.renumber.specs.Parts.{Listed, Placed, Found, FoundKept, LookedAt, LookedKept, Sent};

use edge_list::wide;
use limits::SIZE;
use refusal::Refusal;

// 5: the sizes of the lists, and the length of the map.
fn sizes(n1: usize, n2: usize, map: &[u8]) -> Result<(), Refusal>
    ensures { Answers (row5_map n1 n2 map.now ∷ []) result }
{
    if n1 != n2 || map.len() != n1 {
        return Err(Refusal { row: 5, place: 0 });
    }
    Ok(())
}

// Entry p.
fn entry(map: &[u8], p: usize) -> usize
    requires { Entry map.now p }
    ensures { result ≡ image map.now p }
{
    wide(map[p - 1])
}

// Whether an earlier entry is what entry p is.
fn repeats(map: &[u8], p: usize) -> bool
    requires { Entry map.now p }
    ensures { Tells (Repeats map.now p) result }
{
    map[..p - 1].contains(&map[p - 1])
}

// Whether vertex p of the first list and vertex x of the second have one atom.
fn kept(atoms1: &[u8; SIZE], atoms2: &[u8; SIZE], p: usize, x: usize) -> bool
    requires { (1 ≤ p) × (p ≤ size) × (1 ≤ x) × (x ≤ size) }
    ensures { Tells (rank_at atoms1.now p ≡ rank_at atoms2.now x) result }
{
    atoms1[p - 1] == atoms2[x - 1]
}

// 18: every entry.
fn entries(n: usize, atoms1: &[u8; SIZE], atoms2: &[u8; SIZE], map: &[u8]) -> Result<(), Refusal>
    requires { (n ≤ size) × (length map.now ≡ n) }
    ensures { (l k : ℕ → Atom) → Named n l atoms1.now → Named n k atoms2.now → Answers (row18-kept l k n map.now ∷ []) result }
{
    for p in 1..=map.len() {
        let x = entry(map, p);
        if edge_list::outside(n, x) || repeats(map, p) || !kept(atoms1, atoms2, p, x) {
            return Err(Refusal { row: 18, place: p });
        }
    }
    Ok(())
}

// Whether from u to v is from a to b.
fn same(u: usize, v: usize, a: usize, b: usize) -> bool
    ensures { Tells (◌≡◌ {A = Arc} (a, b) (u, v)) result }
{
    u == a && v == b
}

// Whether an edge joins a and b.
fn joined(edges: &[u8], a: usize, b: usize) -> bool
    ensures { Tells (Memᴰ (a, b) (arcs edges.now)) result }
{
    let m = edges.len() / 2;
    for p in 1..=m {
        let u = edge_list::one(edges, p);
        let v = edge_list::other(edges, p);
        if same(u, v, a, b) || same(v, u, a, b) {
            return true;
        }
    }
    false
}

// Whether edge p of the first list is carried to an edge of the second.
fn carried(edges1: &[u8], edges2: &[u8], map: &[u8], p: usize) -> bool
    requires { Sent edges1.now map.now × Edge edges1.now p }
    ensures { Tells (EdgeSent edges1.now edges2.now map.now p) result }
{
    let u = entry(map, edge_list::one(edges1, p));
    let v = entry(map, edge_list::other(edges1, p));
    joined(edges2, u, v)
}

// 19: every edge of the first list.
fn edges(edges1: &[u8], edges2: &[u8], map: &[u8]) -> Result<(), Refusal>
    requires { Sent edges1.now map.now }
    ensures { Answers (row19 edges1.now edges2.now map.now ∷ []) result }
{
    let m = edges1.len() / 2;
    for p in 1..=m {
        if !carried(edges1, edges2, map, p) {
            return Err(Refusal { row: 19, place: p });
        }
    }
    Ok(())
}

// Every refusal of a map from one skeleton to another, whose vertices have atoms.
pub fn check_marks(
    n1: usize,
    edges1: &[u8],
    atoms1: &[u8; SIZE],
    n2: usize,
    edges2: &[u8],
    atoms2: &[u8; SIZE],
    map: &[u8],
) -> Result<(), Refusal>
    requires { IsSkeleton size width n1 edges1.now }
    ensures { (l k : ℕ → Atom) → Named n1 l atoms1.now → Named n2 k atoms2.now
        → Answers (kept_rows l k n1 edges1.now n2 edges2.now map.now) result }
{
    sizes(n1, n2, map)?;
    entries(n1, atoms1, atoms2, map)?;
    edges(edges1, edges2, map)
}

// The same of plain skeletons, whose vertices are all carbon.
pub fn check(n1: usize, edges1: &[u8], n2: usize, edges2: &[u8], map: &[u8]) -> Result<(), Refusal>
    requires { IsSkeleton size width n1 edges1.now }
    ensures { Answers (map_rows n1 edges1.now n2 edges2.now map.now) result }
{
    let carbon = [0u8; SIZE];
    check_marks(n1, edges1, &carbon, n2, edges2, &carbon, map)
}

// Writes each of the first n of `second` where the same one of `first` says.
fn place(first: &[u8; SIZE], second: &[u8; SIZE], n: usize, out: &mut [u8])
    requires { (n ≤ size) × (length first.now ≡ size) × (length second.now ≡ size) × (n ≤ length out.old) × Listed n first.now }
    ensures { Placed n first.now second.now out.old out.new n }
{
    for (i, v) in first[..n].iter().enumerate() {
        out[wide(*v) - 1] = second[i];
    }
}

// What is answered to two skeletons of the same size, and how many pairs were looked at for their centred codes.
#[derive(Clone, Copy)]
pub struct Handed {
    pub answer: Result<usize, Refusal>,
    pub pairs: usize,
}

// The map from one skeleton to another of the same size, whose vertices have atoms: its length, where the marks of their centred codes are equal; else 0,
// and nothing is written.
pub fn hand_out_marks(
    n: usize,
    edges1: &[u8],
    atoms1: &[u8; SIZE],
    edges2: &[u8],
    atoms2: &[u8; SIZE],
    out: &mut [u8],
) -> Handed
    requires skeleton { IsSkeleton size width n edges1.now × Ranked n atoms1.now }
    requires skeleton_2 { IsSkeleton size width n edges2.now × Ranked n atoms2.now }
    ensures { (l k : ℕ → Atom) → Named n l atoms1.now → Named n k atoms2.now
        → FoundKept l k n edges1.now edges2.now out.old out.new (told result.answer)
        × LookedKept l k n edges1.now edges2.now result.pairs }
{
    let mut first = [0u8; SIZE];
    let mut second = [0u8; SIZE];
    let mut a = [0u8; SIZE];
    let mut b = [0u8; SIZE];
    let one = form_coder::numbered_marks(n, edges1, atoms1, &mut first, &mut a);
    let other = form_coder::numbered_marks(n, edges2, atoms2, &mut second, &mut b);
    let looked = one + other;
    if a[..n] != b[..n] {
        return Handed {
            answer: Ok(0),
            pairs: looked,
        };
    }
    if out.len() < n {
        return Handed {
            answer: Err(Refusal { row: 15, place: n }),
            pairs: looked,
        };
    }
    place(&first, &second, n, out);
    Handed {
        answer: Ok(n),
        pairs: looked,
    }
}

// The same of plain skeletons, whose vertices are all carbon.
pub fn hand_out(n: usize, edges1: &[u8], edges2: &[u8], out: &mut [u8]) -> Handed
    requires { IsSkeleton size width n edges1.now × IsSkeleton size width n edges2.now }
    ensures found { Found n edges1.now edges2.now out.old out.new (told result.answer) }
    ensures looked_at { LookedAt n edges1.now edges2.now result.pairs }
{
    let carbon = [0u8; SIZE];
    hand_out_marks(n, edges1, &carbon, edges2, &carbon, out)
}
