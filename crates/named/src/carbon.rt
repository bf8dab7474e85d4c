// The forms that take carbon only, of an edge list with letters: another atom is 14. A list of carbon alone is that of the plain calls of edition 1.
ghost use Rattle.refusal.specs.document.Outcome.{told};
ghost use Rattle.form_coder.specs.document.Pairs.{CentredPairs};
ghost use Rattle.refusal.specs.document.Reported.{answer, pairs, Reporting};
ghost use Rattle.zurkhovel.specs.document.Reported.{ReportedAtRoot};
ghost use Rattle.zurkhovel.specs.document.Bits.{Pack, Whole, InFraction};
ghost use Rattle.zurkhovel.specs.document.Matrix.{Cam, ZeroA, AZero, CamByCode, ZeroAByCode, AZeroByCode};
ghost use Rattle.zurkhovel.specs.document.Lines.{WriteLine};
ghost use Rattle.named.specs.document.Carbon.{carbon_table};

use limits::{SIZE, VALENCE};
use refusal::{Refusal, Reported};

// The packed form of the rooted code at a vertex.
pub fn pack(
    n: usize,
    edges: &[u8],
    letters: &[u8],
    root: usize,
    out: &mut [u8],
) -> Result<Reported<usize>, Refusal>
    ensures { Reporting (Pack (carbon_table letters.now) n edges.now root out.old out.new) (ReportedAtRoot n edges.now root) (told (answer result)) (pairs result) }
{
    edge_list::check_carbon(SIZE, VALENCE, n, edges, root, letters)?;
    zurkhovel::bit_tuple::pack(1, n, edges, root, out)
}

// The whole number of the rooted code at a vertex.
pub fn whole(n: usize, edges: &[u8], letters: &[u8], root: usize) -> Result<Reported<u64>, Refusal>
    ensures { Reporting (Whole (carbon_table letters.now) n edges.now root) (ReportedAtRoot n edges.now root) (told (answer result)) (pairs result) }
{
    edge_list::check_carbon(limits::WHOLE, VALENCE, n, edges, root, letters)?;
    zurkhovel::bit_tuple::whole(1, n, edges, root)
}

// The fraction of the rooted code at a vertex.
pub fn fraction(
    n: usize,
    edges: &[u8],
    letters: &[u8],
    root: usize,
) -> Result<Reported<f64>, Refusal>
    ensures { Reporting (InFraction (carbon_table letters.now) n edges.now root) (ReportedAtRoot n edges.now root) (told (answer result)) (pairs result) }
{
    edge_list::check_carbon(limits::FRACTION, VALENCE, n, edges, root, letters)?;
    zurkhovel::bit_tuple::fraction(1, n, edges, root)
}

// The CAM in the caller's numbering.
pub fn cam(n: usize, edges: &[u8], letters: &[u8], out: &mut [u8]) -> Result<usize, Refusal>
    ensures { Cam (carbon_table letters.now) n edges.now out.old out.new (told result) }
{
    edge_list::check_carbon(SIZE, VALENCE, n, edges, 1, letters)?;
    zurkhovel::matrix::cam(1, n, edges, out)
}

// The 0A in the caller's numbering.
pub fn zero_a(n: usize, edges: &[u8], letters: &[u8]) -> Result<u64, Refusal>
    ensures { ZeroA (carbon_table letters.now) n edges.now (told result) }
{
    edge_list::check_carbon(limits::ZERO_A, VALENCE, n, edges, 1, letters)?;
    zurkhovel::matrix::zero_a(1, n, edges)
}

// The A0 in the caller's numbering.
pub fn a_zero(n: usize, edges: &[u8], letters: &[u8]) -> Result<u64, Refusal>
    ensures { AZero (carbon_table letters.now) n edges.now (told result) }
{
    edge_list::check_carbon(limits::A_ZERO, VALENCE, n, edges, 1, letters)?;
    zurkhovel::matrix::a_zero(1, n, edges)
}

// The CAM by code.
pub fn cam_by_code(
    n: usize,
    edges: &[u8],
    letters: &[u8],
    out: &mut [u8],
) -> Result<Reported<usize>, Refusal>
    ensures { Reporting (CamByCode (carbon_table letters.now) n edges.now out.old out.new) (CentredPairs n edges.now) (told (answer result)) (pairs result) }
{
    edge_list::check_carbon(SIZE, VALENCE, n, edges, 1, letters)?;
    zurkhovel::matrix::cam_by_code(1, n, edges, out)
}

// The 0A by code.
pub fn zero_a_by_code(n: usize, edges: &[u8], letters: &[u8]) -> Result<Reported<u64>, Refusal>
    ensures { Reporting (ZeroAByCode (carbon_table letters.now) n edges.now) (CentredPairs n edges.now) (told (answer result)) (pairs result) }
{
    edge_list::check_carbon(limits::ZERO_A, VALENCE, n, edges, 1, letters)?;
    zurkhovel::matrix::zero_a_by_code(1, n, edges)
}

// The A0 by code.
pub fn a_zero_by_code(n: usize, edges: &[u8], letters: &[u8]) -> Result<Reported<u64>, Refusal>
    ensures { Reporting (AZeroByCode (carbon_table letters.now) n edges.now) (CentredPairs n edges.now) (told (answer result)) (pairs result) }
{
    edge_list::check_carbon(limits::A_ZERO, VALENCE, n, edges, 1, letters)?;
    zurkhovel::matrix::a_zero_by_code(1, n, edges)
}

// The plain line of the centred code.
pub fn plain_line(
    n: usize,
    edges: &[u8],
    letters: &[u8],
    out: &mut [u8],
) -> Result<Reported<usize>, Refusal>
    ensures { Reporting (WriteLine (carbon_table letters.now) n edges.now out.old out.new) (CentredPairs n edges.now) (told (answer result)) (pairs result) }
{
    edge_list::check_carbon(SIZE, VALENCE, n, edges, 1, letters)?;
    zurkhovel::text::write_line(1, n, edges, out)
}
