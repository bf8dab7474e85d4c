// The centre of a skeleton: a longest path is walked, from a vertex that is farthest from vertex 1 to one that is farthest from it, and
// the centre is its middle.
//
// A walk lists the vertices in the order in which it finds them, those near its source first. For each it notes the vertex that it was
// found from, at the vertex's own number: the source leads to itself, and 0 says that a vertex is not found yet. So the last found is a
// farthest one, and the notes lead from it to the source.
#![tactic(auto)]

ghost use Rattle.std.specs.Prelude.{◌≡◌, List, ◌∷◌, ℕ, suc, ◌≤◌, ◌<◌};
ghost use Rattle.skeleton.specs.document.Skeleton.{IsTree};
ghost use Rattle.longest_path.specs.document.Path.{middle₁, middle₂, IsCentre};
ghost use Rattle.edge_list.specs.Table.{IsTable, Held};
ghost use Rattle.centre.specs.Walking.{Starts, Ground, Spread, Next, Visit, Reached, Trail, Trailed};

use edge_list::{Table, wide};
use limits::SIZE;

// Places for the notes of a walk, from 0 to the last vertex.
const NOTES: usize = SIZE + 1;

// The centre: its one vertex twice, or its two.
#[derive(Clone, Copy)]
pub struct Middles {
    pub first: usize,
    pub second: usize,
}

// The neighbours of v, its row, are found from v where they are not found yet; how many are found then.
fn visit(row: &[u8], v: u8, o: &mut [u8; SIZE], up: &mut [u8; NOTES], e: usize) -> usize
    requires { Visit row.now o.old up.old v e }
    ensures { (N s h : ℕ) (E : List ℕ) (g : Ground N E s) → Next g row.now o.old up.old v h e → Spread g o.new up.new (suc h) result }
{
    let mut b = e;
    for w in row {
        let x = wide(*w);
        if up[x] == 0 {
            up[x] = v;
            o[b] = *w;
            b += 1;
        }
    }
    b
}

// A vertex that is farthest from s; the notes lead from it to s.
fn walk(table: &Table, n: usize, s: u8, up: &mut [u8; NOTES]) -> u8
    requires held { Held n table.now.rows table.now.degs }
    requires starts { Starts n s up.old }
    ensures { (E : List ℕ) → IsTree n E → IsTable n E table.now.rows table.now.degs → Reached n E s up.new result }
{
    let mut o = [0u8; SIZE];
    o[0] = s;
    up[wide(s)] = s;
    let mut e: usize = 1;
    let mut h: usize = 0;
    while e < n {
        let v = o[h];
        e = visit(table.neighbours(wide(v)), v, &mut o, up, e);
        h += 1;
    }
    o[e - 1]
}

// The middle of the path from v along the notes: one goes two steps while another goes one.
fn middle(up: &[u8; NOTES], v: u8) -> Middles
    requires { Trailed up.now v }
    ensures { (p : List ℕ) → Trail up.now v p → (result.first ≡ middle₁ (v ∷ p)) × (result.second ≡ middle₂ (v ∷ p)) }
{
    let mut slow = wide(v);
    let mut fast = slow;
    loop {
        let a = wide(up[fast]);
        if a == fast {
            return Middles {
                first: slow,
                second: slow,
            };
        }
        let next = wide(up[slow]);
        let b = wide(up[a]);
        if b == a {
            return Middles {
                first: slow,
                second: next,
            };
        }
        slow = next;
        fast = b;
    }
}

// The centre of the skeleton whose table this is.
pub fn centre(table: &Table, n: usize) -> Middles
    requires { Held n table.now.rows table.now.degs }
    ensures { (E : List ℕ) → IsTree n E → IsTable n E table.now.rows table.now.degs → IsCentre n E result.first result.second }
{
    let mut up = [0u8; NOTES];
    let u = walk(table, n, 1, &mut up);
    up = [0u8; NOTES];
    let v = walk(table, n, u, &mut up);
    middle(&up, v)
}
