// CAM, 0A and A0: a skeleton by the neighbours that its vertices have among the lower numbers.
//
// What a call lends, and 15, are not looked at here. An edge list that is coded has been accepted by `edge_list::check`.
#![tactic(auto)]

use limits::{A_ZERO, ENDS, SIZE, ZERO_A};
use refusal::Refusal;

// The entries of a CAM that has a 0A, and the bytes of an edge list that has an A0.
pub const ENTRIES: usize = ZERO_A - 1;

const A_ENDS: usize = 2 * (A_ZERO - 1);

ghost use Rattle.std.specs.Prelude.{◌≡◌, [], ◌∷◌, ◌+◌, ◌-◌, ◌*◌, ◌/◌, ◌^◌, ◌≤◌, ◌<◌, length};
ghost use Rattle.laws.specs.document.Laid.{laid_over};
ghost use Rattle.refusal.specs.document.Table.{Clear, row3};
ghost use Rattle.refusal.specs.Checks.{Answers};
ghost use Rattle.limits.specs.document.Limits.{size, zero_size, a_size};
ghost use Rattle.limits.specs.Width.{width};
ghost use Rattle.skeleton.specs.document.Skeleton.{IsSkeleton};
ghost use Rattle.edge_list.specs.document.Edges.{Edge, first_end, second_end};
ghost use Rattle.adjacency.specs.document.Adjacency.{lower, Physical, row14_physical, cam, cam_edges_lem, zero_a_lem, factorial, zero_cam_lem, row4_number, row5_cam, row6-cam, made_rows, cam_rows, zero_rows, column_sum, a_zero_lem, rows, a_edges_lem, row5_ones, a_rows};
ghost use Rattle.adjacency.specs.Entries.{Entries};
ghost use Rattle.adjacency.specs.Made.{cam_front};
ghost use Rattle.adjacency.specs.Parts.{Numbered, Gives, Only, Column};

// The lower neighbour that the edge from a to b gives to v.
fn down(a: usize, b: usize, v: usize) -> Option<usize>
    requires { (1 ≤ a) × (1 ≤ b) }
    ensures { Gives a b v result }
{
    if a == v && b < v {
        return Some(b);
    }
    if b == v && a < v {
        return Some(a);
    }
    None
}

// The lower neighbour that edge p gives to v.
fn lower_at(edges: &[u8], p: usize, v: usize) -> Option<usize>
    requires { Numbered edges.now × Edge edges.now p }
    ensures { Gives (first_end edges.now p) (second_end edges.now p) v result }
{
    down(edge_list::one(edges, p), edge_list::other(edges, p), v)
}

// The lower neighbour of v, where it has just one.
fn only(edges: &[u8], v: usize) -> Option<usize>
    requires { Numbered edges.now }
    ensures { Only edges.now v result }
{
    let mut one: Option<usize> = None;
    for p in 1..=edges.len() / 2 {
        if let Some(u) = lower_at(edges, p, v) {
            if one.is_some() {
                return None;
            }
            one = Some(u);
        }
    }
    one
}

// 14: the numbering is physical.
pub fn physical(n: usize, edges: &[u8]) -> Result<(), Refusal>
    requires { Numbered edges.now × (n ≤ size) }
    ensures { Answers (row14_physical n edges.now ∷ []) result }
{
    for v in 2..=n {
        if only(edges, v).is_none() {
            return Err(Refusal { row: 14, place: v });
        }
    }
    Ok(())
}

// The CAM of a physical numbering.
pub fn write_cam(n: usize, edges: &[u8], out: &mut [u8])
    requires numbered { Numbered edges.now × Physical n edges.now }
    requires n_le_size { (n ≤ size) × (n ≤ length out.old + 1) }
    ensures { out.new ≡ laid_over (cam n edges.now) out.old }
{
    for i in 1..n {
        out[i - 1] = only(edges, i + 1).unwrap() as u8;
    }
}

// 3 and 5 of a CAM.
fn cam_sizes(n: usize, cam: &[u8]) -> Result<(), Refusal>
    ensures { Answers (row3 size n ∷ row5_cam n cam.now ∷ []) result }
{
    refusal::sized(n, SIZE)?;
    if cam.len() != n - 1 {
        return Err(Refusal { row: 5, place: 0 });
    }
    Ok(())
}

// 6 of a CAM.
fn cam_entries(cam: &[u8]) -> Result<(), Refusal>
    ensures { Answers (row6-cam cam.now ∷ []) result }
{
    for (i, x) in cam.iter().enumerate() {
        if *x == 0 || i + 1 < *x as usize {
            return Err(Refusal {
                row: 6,
                place: i + 1,
            });
        }
    }
    Ok(())
}

// The edges that a CAM makes.
pub fn cam_edges(cam: &[u8], out: &mut [u8])
    requires { (length cam.now < size) × (2 * length cam.now ≤ length out.old) }
    ensures { out.new ≡ laid_over (cam_edges_lem cam.now) out.old }
{
    for (i, x) in cam.iter().enumerate() {
        out[2 * i] = *x;
        out[2 * i + 1] = (i + 2) as u8;
    }
}

// 7, 8 and 9 of the edges that a CAM makes, behind its 3, 5 and 6.
fn made(limit: u8, n: usize, cam: &[u8]) -> Result<(), Refusal>
    requires limit_le_width { limit ≤ width }
    requires clear { Clear (cam_front size n cam.now) }
    ensures { Answers (made_rows limit (cam_edges_lem cam.now)) result }
{
    let mut edges = [0u8; ENDS];
    let m = 2 * cam.len();
    cam_edges(cam, &mut edges[..m]);
    edge_list::check(SIZE, limit, n, &edges[..m], 1)
}

// Every refusal of a CAM.
pub fn cam_check(limit: u8, n: usize, cam: &[u8]) -> Result<(), Refusal>
    requires { limit ≤ width }
    ensures { Answers (cam_rows size limit n cam.now) result }
{
    cam_sizes(n, cam)?;
    cam_entries(cam)?;
    made(limit, n, cam)
}

// The 0A of a CAM.
pub fn zero_a(cam: &[u8]) -> u64
    requires { Entries 1 cam.now × (length cam.now < zero_size) }
    ensures { result ≡ zero_a_lem cam.now }
{
    let mut x: u64 = 0;
    for i in 1..cam.len() {
        x = x * (i as u64 + 1) + (cam[i] as u64 - 1);
    }
    x
}

fn factorial(k: usize) -> u64
    requires { k < zero_size }
    ensures { result ≡ factorial k }
{
    let mut f: u64 = 1;
    for i in 1..=k {
        f *= i as u64;
    }
    f
}

// The CAM of a 0A. What is left of x holds the entries before i; entry i is a digit in the base i.
pub fn zero_cam(n: usize, x: u64, out: &mut [u8])
    requires { (1 ≤ n) × (n ≤ zero_size) × (n ≤ length out.old + 1) }
    ensures { out.new ≡ laid_over (zero_cam_lem n x) out.old }
{
    let mut v = x;
    for i in (1..n).rev() {
        let b = i as u64;
        out[i - 1] = (v % b) as u8 + 1;
        v /= b;
    }
}

// 3 and 4 of a 0A.
fn zero_sizes(n: usize, x: u64) -> Result<(), Refusal>
    ensures { Answers (row3 zero_size n ∷ row4_number (factorial (n - 1)) x ∷ []) result }
{
    refusal::sized(n, ZERO_A)?;
    if factorial(n - 1) <= x {
        return Err(Refusal { row: 4, place: 0 });
    }
    Ok(())
}

// Every refusal of a 0A.
pub fn zero_check(limit: u8, n: usize, x: u64) -> Result<(), Refusal>
    requires { limit ≤ width }
    ensures { Answers (zero_rows zero_size limit n x) result }
{
    zero_sizes(n, x)?;
    let mut cam = [0u8; ENTRIES];
    zero_cam(n, x, &mut cam[..n - 1]);
    made(limit, n, &cam[..n - 1])
}

// BIN of vertex v: bit r - 1 for each lower neighbour r.
fn bin(edges: &[u8], v: usize) -> u64
    requires { Numbered edges.now × (v ≤ a_size) × (length edges.now < 2 * a_size) }
    ensures { result ≡ column_sum (lower edges.now v) }
{
    let mut b: u64 = 0;
    for p in 1..=edges.len() / 2 {
        if let Some(u) = lower_at(edges, p, v) {
            b += 1u64 << (u - 1);
        }
    }
    b
}

// The A0 of a skeleton.
pub fn a_zero(n: usize, edges: &[u8]) -> u64
    requires { IsSkeleton a_size width n edges.now }
    ensures { result ≡ a_zero_lem n edges.now }
{
    let mut x: u64 = 0;
    for i in 1..n {
        x = (x << i) + bin(edges, i + 1);
    }
    x
}

// The edges of column i, rows ascending, and how many bytes they are.
fn column(i: usize, b: u64, out: &mut [u8]) -> usize
    requires { (i < a_size) × (2 * length (rows 1 i b) ≤ length out.old) }
    ensures { Column i b out.old result out.new }
{
    let mut k: usize = 0;
    for r in 1..=i {
        let bit = (b >> (r - 1)) % 2;
        if bit == 1 {
            out[k] = r as u8;
            out[k + 1] = (i + 1) as u8;
            k += 2;
        }
    }
    k
}

// The edges that an A0 makes, by column.
pub fn a_edges(n: usize, x: u64, out: &mut [u8])
    requires { (1 ≤ n) × (n ≤ a_size) × (length (a_edges_lem n x) ≤ length out.old) }
    ensures { out.new ≡ laid_over (a_edges_lem n x) out.old }
{
    let mut s = n * (n - 1) / 2;
    let mut k: usize = 0;
    for i in 1..n {
        s -= i;
        let b = (x >> s) % (1u64 << i);
        k += column(i, b, &mut out[k..]);
    }
}

// 3, 4 and 5 of an A0.
fn a_sizes(n: usize, x: u64) -> Result<(), Refusal>
    ensures { Answers (row3 a_size n ∷ row4_number (2 ^ (n * (n - 1) / 2)) x ∷ row5_ones n x ∷ []) result }
{
    refusal::sized(n, A_ZERO)?;
    if (1u64 << (n * (n - 1) / 2)) <= x {
        return Err(Refusal { row: 4, place: 0 });
    }
    if u64::count_ones(x) as usize != n - 1 {
        return Err(Refusal { row: 5, place: 0 });
    }
    Ok(())
}

// Every refusal of an A0.
pub fn a_check(limit: u8, n: usize, x: u64) -> Result<(), Refusal>
    requires { limit ≤ width }
    ensures { Answers (a_rows a_size limit n x) result }
{
    a_sizes(n, x)?;
    let mut edges = [0u8; A_ENDS];
    a_edges(n, x, &mut edges[..2 * (n - 1)]);
    edge_list::check(A_ZERO, limit, n, &edges[..2 * (n - 1)], 1)
}
