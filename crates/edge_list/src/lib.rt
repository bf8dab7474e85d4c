// A partner's edge list: its refusals 3 and 5 to 9, with letters 2, 21, 20 and 14 too, and the table of its neighbours.
//
// An edge list is flat, one byte for each end. Edges count from 1, as the places of the refusals do.
#![tactic(auto)]

ghost use Rattle.std.specs.Prelude.{◌≡◌, ◌⊎◌, [], ◌∷◌, ℕ, ◌-◌, ◌≤◌, ◌<◌, length, get_or, replicate, take};
ghost use Rattle.laws.specs.Tells.{Tells};
ghost use Rattle.refusal.specs.document.Table.{Clear, Outside, row3};
ghost use Rattle.refusal.specs.Checks.{Answers};
ghost use Rattle.limits.specs.document.Limits.{size};
ghost use Rattle.limits.specs.Width.{width};
ghost use Rattle.skeleton.specs.document.Skeleton.{IsSkeleton};
ghost use Rattle.skeleton.specs.document.Atom.{bonds, atom_at};
ghost use Rattle.edge_list.specs.document.Edges.{Edge, first_end, second_end, row5_edges, row6, row7, row8, crowded_row, row9, edge_rows};
ghost use Rattle.edge_list.specs.document.Letters.{letter_rows, carbon_rows};
ghost use Rattle.edge_list.specs.Limited.{Limited};
ghost use Rattle.edge_list.specs.Table.{Shaped, deg, IsTable};
ghost use Rattle.edge_list.specs.Parts.{Parted, Links, Top, Room, Added};

use limits::{BONDS, BYTES, SIZE, WIDTH};
use refusal::Refusal;

// A byte as a number that counts places.
pub fn wide(x: u8) -> usize
    ensures { (result ≡ x) × (result < 256) }
{
    x as usize
}

// The ends of edge p.
pub fn one(edges: &[u8], p: usize) -> usize
    requires { Edge edges.now p }
    ensures { (result ≡ first_end edges.now p) × (result < 256) }
{
    wide(edges[2 * (p - 1)])
}

pub fn other(edges: &[u8], p: usize) -> usize
    requires { Edge edges.now p }
    ensures { (result ≡ second_end edges.now p) × (result < 256) }
{
    wide(edges[2 * (p - 1) + 1])
}

// 3 and 5: the number of vertices, and the length of the list.
fn sizes(most: usize, n: usize, edges: &[u8]) -> Result<(), Refusal>
    ensures { Answers (row3 most n ∷ row5_edges n edges.now ∷ []) result }
{
    refusal::sized(n, most)?;
    if edges.len() % 2 != 0 || edges.len() / 2 != n - 1 {
        return Err(Refusal { row: 5, place: 0 });
    }
    Ok(())
}

// Whether v is 0 or above n.
pub fn outside(n: usize, v: usize) -> bool
    ensures { Tells (Outside n v) result }
{
    v == 0 || n < v
}

// Whether an end of edge p is.
fn stray(n: usize, edges: &[u8], p: usize) -> bool
    requires { Edge edges.now p }
    ensures { Tells (Outside n (first_end edges.now p) ⊎ Outside n (second_end edges.now p)) result }
{
    outside(n, one(edges, p)) || outside(n, other(edges, p))
}

// 6: the root, then every end of every edge.
fn vertices(n: usize, edges: &[u8], root: usize) -> Result<(), Refusal>
    ensures { Answers (row6 n edges.now root ∷ []) result }
{
    if outside(n, root) {
        return Err(Refusal { row: 6, place: 0 });
    }
    let m = edges.len() / 2;
    for p in 1..=m {
        if stray(n, edges, p) {
            return Err(Refusal { row: 6, place: p });
        }
    }
    Ok(())
}

// 7: an edge from a vertex to itself.
fn loops(edges: &[u8]) -> Result<(), Refusal>
    ensures { Answers (row7 edges.now ∷ []) result }
{
    let m = edges.len() / 2;
    for p in 1..=m {
        if one(edges, p) == other(edges, p) {
            return Err(Refusal { row: 7, place: p });
        }
    }
    Ok(())
}

// Each vertex stands for itself alone.
fn part(up: &mut [u8; BYTES])
    requires { length up.old ≡ 256 }
    ensures { Parted 256 up.new }
{
    for (v, link) in up.iter_mut().enumerate() {
        *link = v as u8;
    }
}

// The vertex that stands for all that v is joined to. Each step goes to a lower one.
fn head(up: &[u8; BYTES], v: usize) -> usize
    requires { Links up.now × (v < 256) }
    ensures { Top up.now v result }
{
    let mut x = v;
    while wide(up[x]) != x {
        x = wide(up[x]);
    }
    x
}

// 8: an edge whose ends are joined already. Vertices that are joined have one head.
fn cycles(edges: &[u8]) -> Result<(), Refusal>
    ensures { Answers (row8 edges.now ∷ []) result }
{
    let mut up = [0u8; 256];
    part(&mut up);
    let m = edges.len() / 2;
    for p in 1..=m {
        let u = one(edges, p);
        let v = other(edges, p);
        let a = head(&up, u);
        let b = head(&up, v);
        if a == b {
            return Err(Refusal { row: 8, place: p });
        }
        let low = a.min(b);
        let high = a.max(b);
        up[high] = low as u8;
    }
    Ok(())
}

// 7 and 8: an edge from a vertex to itself closes a cycle too, so one is looked for only where there is a cycle.
fn rings(edges: &[u8]) -> Result<(), Refusal>
    ensures { Answers (row7 edges.now ∷ row8 edges.now ∷ []) result }
{
    if let Err(cycle) = cycles(edges) {
        loops(edges)?;
        return Err(cycle);
    }
    Ok(())
}

// Whether one of two has room for no edge more.
fn full(x: u8, y: u8) -> bool
    ensures { Tells ((x ≡ 0) ⊎ (y ≡ 0)) result }
{
    x == 0 || y == 0
}

// 9 or 20, as `number` says: an end that has as many edges as it may have, which `room` tells. What is left of that room is written there.
fn degrees(number: u8, room: &mut [u8; BYTES], edges: &[u8]) -> Result<(), Refusal>
    requires room_len { length room.old ≡ 256 }
    requires clear { Clear (row7 edges.now ∷ []) }
    ensures { (limit : ℕ → ℕ) → Limited limit room.old → Answers (crowded_row number limit edges.now ∷ []) result }
{
    let m = edges.len() / 2;
    for p in 1..=m {
        let a = one(edges, p);
        let b = other(edges, p);
        if full(room[a], room[b]) {
            return Err(Refusal {
                row: number,
                place: p,
            });
        }
        room[a] -= 1;
        room[b] -= 1;
    }
    Ok(())
}

// 6 to 9.
fn joins(limit: u8, n: usize, edges: &[u8], root: usize) -> Result<(), Refusal>
    requires { limit ≤ width }
    ensures { Answers (row6 n edges.now root ∷ row7 edges.now ∷ row8 edges.now ∷ row9 limit edges.now ∷ []) result }
{
    vertices(n, edges, root)?;
    rings(edges)?;
    let mut room = [limit; BYTES];
    degrees(9, &mut room, edges)
}

// Every refusal of an edge list of at most `most` vertices, each with at most `limit` neighbours. Where the caller names no root, vertex 1
// stands for it.
pub fn check(most: usize, limit: u8, n: usize, edges: &[u8], root: usize) -> Result<(), Refusal>
    requires { limit ≤ width }
    ensures { Answers (edge_rows most limit n edges.now root) result }
{
    sizes(most, n, edges)?;
    joins(limit, n, edges, root)
}

// How many neighbours each vertex may have by its letter. Behind the letters stands carbon.
fn allow(letters: &[u8], room: &mut [u8; BYTES])
    requires { (length letters.now ≤ size) × (room.old ≡ replicate 256 4) }
    ensures { Limited (λ v. bonds (atom_at letters.now v)) room.new }
{
    for v in 0..=letters.len() {
        room[v] = letters::bonds_at(letters, v);
    }
}

// Every refusal of an edge list with letters: 2, 3, 5, 21, 6 to 9, and 20.
pub fn check_letters(
    most: usize,
    limit: u8,
    n: usize,
    edges: &[u8],
    root: usize,
    letters: &[u8],
) -> Result<(), Refusal>
    requires { (most ≤ size) × (limit ≤ width) }
    ensures { Answers (letter_rows most limit n edges.now root letters.now) result }
{
    letters::known(letters)?;
    sizes(most, n, edges)?;
    letters::as_many(n, letters)?;
    joins(limit, n, edges, root)?;
    let mut room = [BONDS; BYTES];
    allow(letters, &mut room);
    degrees(20, &mut room, edges)
}

// The same of a form that takes carbon only: behind all these 14 at another atom.
pub fn check_carbon(
    most: usize,
    limit: u8,
    n: usize,
    edges: &[u8],
    root: usize,
    letters: &[u8],
) -> Result<(), Refusal>
    requires { (most ≤ size) × (limit ≤ width) }
    ensures { Answers (carbon_rows most limit n edges.now root letters.now) result }
{
    check_letters(most, limit, n, edges, root, letters)?;
    letters::carbon(letters)
}

// The table of neighbours of a skeleton: for each vertex a row of its neighbours, in the order of the edges, and how many they are. All else is 0.
#[derive(Drop)]
pub struct Table {
    pub rows: [[u8; WIDTH]; SIZE],
    pub degs: [u8; SIZE],
}

impl Table {
    // A table of no neighbours.
    pub fn new() -> Table
        ensures { (result.rows ≡ replicate size (replicate width 0)) × (result.degs ≡ replicate size 0) }
    {
        Table {
            rows: [[0u8; WIDTH]; SIZE],
            degs: [0u8; SIZE],
        }
    }

    // The neighbours of v.
    pub fn neighbours(&self, v: usize) -> &[u8]
        requires shaped { Shaped self.now.rows self.now.degs }
        requires le_v { (1 ≤ v) × (v ≤ size) × (deg self.now.degs v ≤ width) }
        ensures { result.now ≡ take (deg self.now.degs v) (get_or self.now.rows (v - 1) []) }
    {
        let i = v - 1;
        let m = wide(self.degs[i]);
        &self.rows[i][..m]
    }

    // b goes behind the neighbours that a has.
    fn add(&mut self, a: usize, b: usize)
        requires shaped { Shaped self.old.rows self.old.degs }
        requires room { Room self.old.degs a b }
        ensures { Added a b self.old.rows self.old.degs self.new.rows self.new.degs }
    {
        let i = a - 1;
        let j = wide(self.degs[i]);
        self.rows[i][j] = b as u8;
        self.degs[i] += 1;
    }

    // Becomes the table of an accepted list of n vertices. Whatever it held is gone. It is filled where it stands, since a table that is handed back by
    // value is copied on the way.
    pub fn fill(&mut self, n: usize, edges: &[u8])
        requires { IsSkeleton size width n edges.now }
        ensures { IsTable n edges.now self.new.rows self.new.degs }
    {
        self.rows = [[0u8; WIDTH]; SIZE];
        self.degs = [0u8; SIZE];
        let m = edges.len() / 2;
        for p in 1..=m {
            let a = one(edges, p);
            let b = other(edges, p);
            self.add(a, b);
            self.add(b, a);
        }
    }
}
