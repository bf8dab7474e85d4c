// CAM, 0A and A0.
ghost use Rattle.std.specs.Prelude.{◌≡◌, ◌-◌, ◌*◌, ◌≤◌, ◌<◌, length};
ghost use Rattle.refusal.specs.Checks.{Answers};
ghost use Rattle.refusal.specs.document.Outcome.{told};
ghost use Rattle.limits.specs.document.Limits.{size, zero_size};
ghost use Rattle.limits.specs.Width.{width};
ghost use Rattle.skeleton.specs.document.Skeleton.{IsSkeleton};
ghost use Rattle.adjacency.specs.document.Adjacency as adjacency;
ghost use Rattle.form_coder.specs.document.Pairs.{CentredPairs};
ghost use Rattle.refusal.specs.document.Reported.{answer, pairs, Reporting};
ghost use Rattle.zurkhovel.specs.Rooting.{LaysCam, ListingByCode};
ghost use Rattle.zurkhovel.specs.document.InEdition.{edge_table, physical_table};
ghost use Rattle.zurkhovel.specs.document.Matrix.{DecodeCam, DecodeZeroA, DecodeAZero, Cam, ZeroA, AZero, CamByCode, ZeroAByCode, AZeroByCode};

use super::editions;
use limits::SIZE;
use refusal::{Refusal, Reported};

// The edges of a CAM that is accepted, with row 15.
fn lay_cam(cam: &[u8], out: &mut [u8]) -> Result<usize, Refusal>
    requires { length cam.now < size }
    ensures { LaysCam cam.now out.old out.new (told result) }
{
    let need = 2 * cam.len();
    refusal::fits(need, out.len())?;
    adjacency::cam_edges(cam, out);
    Ok(need)
}

// The edges (lower, higher) of a CAM, in order of the higher.
pub fn decode_cam(edition: usize, n: usize, cam: &[u8], out: &mut [u8]) -> Result<usize, Refusal>
    ensures { DecodeCam edition n cam.now out.old out.new (told result) }
{
    editions::cam(edition, n, cam)?;
    lay_cam(cam, out)
}

// The edges of a 0A.
pub fn decode_zero_a(edition: usize, n: usize, value: u64, out: &mut [u8]) -> Result<usize, Refusal>
    ensures { DecodeZeroA edition n value out.old out.new (told result) }
{
    editions::zero_a(edition, n, value)?;
    let mut cam = [0u8; adjacency::ENTRIES];
    adjacency::zero_cam(n, value, &mut cam);
    lay_cam(&cam[..n - 1], out)
}

// The edges of an A0, in order of the higher, then of the lower.
pub fn decode_a_zero(edition: usize, n: usize, value: u64, out: &mut [u8]) -> Result<usize, Refusal>
    ensures { DecodeAZero edition n value out.old out.new (told result) }
{
    editions::a_zero(edition, n, value)?;
    let need = 2 * (n - 1);
    refusal::fits(need, out.len())?;
    adjacency::a_edges(n, value, out);
    Ok(need)
}

// Every refusal of an edge list whose numbering is to be physical, with the form's limit of N.
fn check(edition: usize, most: usize, n: usize, edges: &[u8]) -> Result<(), Refusal>
    requires { most ≤ size }
    ensures { Answers (physical_table (edge_table edition) most n edges.now) result }
{
    editions::edges(edition, most, n, edges, 1)?;
    adjacency::physical(n, edges)
}

// The CAM, in the caller's numbering.
pub fn cam(edition: usize, n: usize, edges: &[u8], out: &mut [u8]) -> Result<usize, Refusal>
    ensures { Cam (edge_table edition) n edges.now out.old out.new (told result) }
{
    check(edition, SIZE, n, edges)?;
    let need = n - 1;
    refusal::fits(need, out.len())?;
    adjacency::write_cam(n, edges, out);
    Ok(need)
}

// The 0A of a skeleton in a physical numbering.
fn zero_of(n: usize, edges: &[u8]) -> u64
    requires { IsSkeleton zero_size width n edges.now × adjacency.Physical n edges.now }
    ensures { result ≡ adjacency.zero_a_lem (adjacency.cam n edges.now) }
{
    let mut cam = [0u8; adjacency::ENTRIES];
    adjacency::write_cam(n, edges, &mut cam);
    adjacency::zero_a(&cam[..n - 1])
}

// The 0A, in the caller's numbering.
pub fn zero_a(edition: usize, n: usize, edges: &[u8]) -> Result<u64, Refusal>
    ensures { ZeroA (edge_table edition) n edges.now (told result) }
{
    check(edition, limits::ZERO_A, n, edges)?;
    Ok(zero_of(n, edges))
}

// The A0, in the caller's numbering.
pub fn a_zero(edition: usize, n: usize, edges: &[u8]) -> Result<u64, Refusal>
    ensures { AZero (edge_table edition) n edges.now (told result) }
{
    editions::edges(edition, limits::A_ZERO, n, edges, 1)?;
    Ok(adjacency::a_zero(n, edges))
}

// The edges in the numbering by code of a skeleton of at most `most` vertices.
fn by_code(
    edition: usize,
    most: usize,
    n: usize,
    edges: &[u8],
    ends: &mut [u8],
) -> Result<usize, Refusal>
    requires { (most ≤ size) × (length ends.old ≡ 2 * (size - 1)) }
    ensures { ListingByCode edition most n edges.now ends.new result }
{
    editions::edges(edition, most, n, edges, 1)?;
    Ok(form_coder::by_code(n, edges, ends))
}

// The CAM by code.
pub fn cam_by_code(
    edition: usize,
    n: usize,
    edges: &[u8],
    out: &mut [u8],
) -> Result<Reported<usize>, Refusal>
    ensures { Reporting (CamByCode (edge_table edition) n edges.now out.old out.new) (CentredPairs n edges.now) (told (answer result)) (pairs result) }
{
    let mut ends = [0u8; limits::ENDS];
    let m = edges.len();
    let pairs = by_code(edition, SIZE, n, edges, &mut ends)?;
    let need = n - 1;
    refusal::fits(need, out.len())?;
    adjacency::write_cam(n, &ends[..m], out);
    Ok(Reported { value: need, pairs })
}

// The 0A by code.
pub fn zero_a_by_code(edition: usize, n: usize, edges: &[u8]) -> Result<Reported<u64>, Refusal>
    ensures { Reporting (ZeroAByCode (edge_table edition) n edges.now) (CentredPairs n edges.now) (told (answer result)) (pairs result) }
{
    let mut ends = [0u8; limits::ENDS];
    let m = edges.len();
    let pairs = by_code(edition, limits::ZERO_A, n, edges, &mut ends)?;
    Ok(Reported {
        value: zero_of(n, &ends[..m]),
        pairs,
    })
}

// The A0 by code.
pub fn a_zero_by_code(edition: usize, n: usize, edges: &[u8]) -> Result<Reported<u64>, Refusal>
    ensures { Reporting (AZeroByCode (edge_table edition) n edges.now) (CentredPairs n edges.now) (told (answer result)) (pairs result) }
{
    let mut ends = [0u8; limits::ENDS];
    let m = edges.len();
    let pairs = by_code(edition, limits::A_ZERO, n, edges, &mut ends)?;
    Ok(Reported {
        value: adjacency::a_zero(n, &ends[..m]),
        pairs,
    })
}
