// The public calls on skeletons with named atoms as C functions, as in `lib`: every one that reports how many pairs it looked at hands that number over through a lent place.
ghost use Rattle.form.specs.document.Labelled.{IsNTupleₗ, IsCentredₗ};
ghost use Rattle.form_coder.specs.document.Pairs.{CentredPairs};
ghost use Rattle.skeleton.specs.document.AtomMarks as names;
ghost use Rattle.refusal.specs.document.Reported.{Reporting};
ghost use Rattle.zurkhovel.specs.document.Reported.{ReportedAtRoot};
ghost use Rattle.named.specs.document.Codes.{NamedCheckCode, NamedDecodeCode, NamedDecodeForm, NamedCheckEdges, NamedRootedCode, NamedFormCode, NamedAtRoot, NamedWidest, NamedMiddles};
ghost use Rattle.named.specs.document.Same.{NamedSameSkeleton, NamedHandOut, NamedCheckRenumbering, NamedOfBoth};
ghost use Rattle.named.specs.document.Alike.{NamedEqualVertices};
ghost use Rattle.zurkhovel.specs.document.Bits.{Pack, Whole, InFraction};
ghost use Rattle.zurkhovel.specs.document.Matrix.{Cam, ZeroA, AZero, CamByCode, ZeroAByCode, AZeroByCode};
ghost use Rattle.zurkhovel.specs.document.Lines.{WriteLine};
ghost use Rattle.named.specs.document.Carbon.{carbon_table};
ghost use Rattle.named.specs.document.Text.{NamedWriteLine, NamedReadLine, NamedReadText, NamedListText};
ghost use Rattle.packing.specs.document.Packing.{PackedAnswer, PackedFinding, PackedMapping, PackedValue};

use packing::{answered, counted, found, judged, passed, sent, valued};

#[unsafe(no_mangle)]
pub extern "C" fn zk_named_check_code(code: &[u8], letters: &[u8]) -> u32
    ensures { PackedAnswer (NamedCheckCode code.now letters.now) result }
{
    passed(named::codes::check_code(code, letters))
}

#[unsafe(no_mangle)]
pub extern "C" fn zk_named_decode_code(
    code: &[u8],
    letters: &[u8],
    edges: &mut [u8],
    spelling: &mut [u8],
) -> u32
    ensures { PackedAnswer (NamedDecodeCode code.now letters.now (edges.old, spelling.old) (edges.new, spelling.new)) result }
{
    answered(named::codes::decode_code(code, letters, edges, spelling))
}

#[unsafe(no_mangle)]
pub extern "C" fn zk_named_decode_n_tuple(
    code: &[u8],
    letters: &[u8],
    edges: &mut [u8],
    spelling: &mut [u8],
) -> u32
    ensures { PackedAnswer (NamedDecodeForm (IsNTupleₗ names.atoms) code.now letters.now (edges.old, spelling.old) (edges.new, spelling.new)) result }
{
    answered(named::codes::decode_n_tuple(code, letters, edges, spelling))
}

#[unsafe(no_mangle)]
pub extern "C" fn zk_named_decode_centred(
    code: &[u8],
    letters: &[u8],
    edges: &mut [u8],
    spelling: &mut [u8],
) -> u32
    ensures { PackedAnswer (NamedDecodeForm (IsCentredₗ names.atoms) code.now letters.now (edges.old, spelling.old) (edges.new, spelling.new)) result }
{
    answered(named::codes::decode_centred(code, letters, edges, spelling))
}

#[unsafe(no_mangle)]
pub extern "C" fn zk_named_check_edges(n: usize, edges: &[u8], letters: &[u8], root: usize) -> u32
    ensures { PackedAnswer (NamedCheckEdges n edges.now letters.now root) result }
{
    passed(named::codes::check_edges(n, edges, letters, root))
}

#[unsafe(no_mangle)]
pub extern "C" fn zk_named_rooted_code(
    n: usize,
    edges: &[u8],
    letters: &[u8],
    root: usize,
    out: &mut [u8],
    spelling: &mut [u8],
    pairs: &mut usize,
) -> u32
    ensures { PackedAnswer (λ o. Reporting (NamedRootedCode n edges.now letters.now root (out.old, spelling.old) (out.new, spelling.new)) (NamedAtRoot n edges.now letters.now root) o pairs.new) result }
{
    answered(counted(
        named::codes::rooted_code(n, edges, letters, root, out, spelling),
        pairs,
    ))
}

#[unsafe(no_mangle)]
pub extern "C" fn zk_named_n_tuple_code(
    n: usize,
    edges: &[u8],
    letters: &[u8],
    out: &mut [u8],
    spelling: &mut [u8],
    pairs: &mut usize,
) -> u32
    ensures { PackedAnswer (λ o. Reporting (NamedFormCode (IsNTupleₗ names.atoms) n edges.now letters.now (out.old, spelling.old) (out.new, spelling.new)) (NamedWidest n edges.now letters.now) o pairs.new) result }
{
    answered(counted(
        named::codes::n_tuple_code(n, edges, letters, out, spelling),
        pairs,
    ))
}

#[unsafe(no_mangle)]
pub extern "C" fn zk_named_centred_code(
    n: usize,
    edges: &[u8],
    letters: &[u8],
    out: &mut [u8],
    spelling: &mut [u8],
    pairs: &mut usize,
) -> u32
    ensures { PackedAnswer (λ o. Reporting (NamedFormCode (IsCentredₗ names.atoms) n edges.now letters.now (out.old, spelling.old) (out.new, spelling.new)) (NamedMiddles n edges.now letters.now) o pairs.new) result }
{
    answered(counted(
        named::codes::centred_code(n, edges, letters, out, spelling),
        pairs,
    ))
}

#[unsafe(no_mangle)]
pub extern "C" fn zk_named_same_skeleton(
    n1: usize,
    edges1: &[u8],
    letters1: &[u8],
    n2: usize,
    edges2: &[u8],
    letters2: &[u8],
    pairs: &mut usize,
) -> u32
    ensures { PackedFinding (λ o. Reporting (NamedSameSkeleton n1 edges1.now letters1.now n2 edges2.now letters2.now) (NamedOfBoth n1 edges1.now letters1.now n2 edges2.now letters2.now) o pairs.new) result }
{
    found(counted(
        named::codes::same_skeleton(n1, edges1, letters1, n2, edges2, letters2),
        pairs,
    ))
}

#[unsafe(no_mangle)]
pub extern "C" fn zk_named_renumbering(
    n1: usize,
    edges1: &[u8],
    letters1: &[u8],
    n2: usize,
    edges2: &[u8],
    letters2: &[u8],
    out: &mut [u8],
    pairs: &mut usize,
) -> u32
    ensures { PackedMapping (λ o. Reporting (NamedHandOut n1 edges1.now letters1.now n2 edges2.now letters2.now out.old out.new) (NamedOfBoth n1 edges1.now letters1.now n2 edges2.now letters2.now) o pairs.new) result }
{
    sent(counted(
        named::maps::renumbering(n1, edges1, letters1, n2, edges2, letters2, out),
        pairs,
    ))
}

#[unsafe(no_mangle)]
pub extern "C" fn zk_named_check_renumbering(
    n1: usize,
    edges1: &[u8],
    letters1: &[u8],
    n2: usize,
    edges2: &[u8],
    letters2: &[u8],
    map: &[u8],
) -> u32
    ensures { PackedMapping (NamedCheckRenumbering n1 edges1.now letters1.now n2 edges2.now letters2.now map.now) result }
{
    judged(named::maps::check_renumbering(n1, edges1, letters1, n2, edges2, letters2, map))
}

#[unsafe(no_mangle)]
pub extern "C" fn zk_named_equal_vertices(
    n: usize,
    edges: &[u8],
    letters: &[u8],
    out: &mut [u8],
    pairs: &mut usize,
) -> u32
    ensures { PackedAnswer (λ o. Reporting (NamedEqualVertices n edges.now letters.now out.old out.new) (NamedMiddles n edges.now letters.now) o pairs.new) result }
{
    answered(counted(named::alike::equal_vertices(n, edges, letters, out), pairs))
}

#[unsafe(no_mangle)]
pub extern "C" fn zk_named_pack(
    n: usize,
    edges: &[u8],
    letters: &[u8],
    root: usize,
    out: &mut [u8],
    pairs: &mut usize,
) -> u32
    ensures { PackedAnswer (λ o. Reporting (Pack (carbon_table letters.now) n edges.now root out.old out.new) (ReportedAtRoot n edges.now root) o pairs.new) result }
{
    answered(counted(named::carbon::pack(n, edges, letters, root, out), pairs))
}

#[unsafe(no_mangle)]
pub extern "C" fn zk_named_whole(
    n: usize,
    edges: &[u8],
    letters: &[u8],
    root: usize,
    value: &mut u64,
    pairs: &mut usize,
) -> u32
    ensures { PackedValue (λ o. Reporting (Whole (carbon_table letters.now) n edges.now root) (ReportedAtRoot n edges.now root) o pairs.new) value.old value.new result }
{
    valued(
        counted(named::carbon::whole(n, edges, letters, root), pairs),
        value,
    )
}

#[unsafe(no_mangle)]
pub extern "C" fn zk_named_fraction(
    n: usize,
    edges: &[u8],
    letters: &[u8],
    root: usize,
    value: &mut f64,
    pairs: &mut usize,
) -> u32
    ensures { PackedValue (λ o. Reporting (InFraction (carbon_table letters.now) n edges.now root) (ReportedAtRoot n edges.now root) o pairs.new) value.old value.new result }
{
    valued(
        counted(named::carbon::fraction(n, edges, letters, root), pairs),
        value,
    )
}

#[unsafe(no_mangle)]
pub extern "C" fn zk_named_cam(n: usize, edges: &[u8], letters: &[u8], out: &mut [u8]) -> u32
    ensures { PackedAnswer (Cam (carbon_table letters.now) n edges.now out.old out.new) result }
{
    answered(named::carbon::cam(n, edges, letters, out))
}

#[unsafe(no_mangle)]
pub extern "C" fn zk_named_zero_a(n: usize, edges: &[u8], letters: &[u8], value: &mut u64) -> u32
    ensures { PackedValue (ZeroA (carbon_table letters.now) n edges.now) value.old value.new result }
{
    valued(named::carbon::zero_a(n, edges, letters), value)
}

#[unsafe(no_mangle)]
pub extern "C" fn zk_named_a_zero(n: usize, edges: &[u8], letters: &[u8], value: &mut u64) -> u32
    ensures { PackedValue (AZero (carbon_table letters.now) n edges.now) value.old value.new result }
{
    valued(named::carbon::a_zero(n, edges, letters), value)
}

#[unsafe(no_mangle)]
pub extern "C" fn zk_named_cam_by_code(
    n: usize,
    edges: &[u8],
    letters: &[u8],
    out: &mut [u8],
    pairs: &mut usize,
) -> u32
    ensures { PackedAnswer (λ o. Reporting (CamByCode (carbon_table letters.now) n edges.now out.old out.new) (CentredPairs n edges.now) o pairs.new) result }
{
    answered(counted(named::carbon::cam_by_code(n, edges, letters, out), pairs))
}

#[unsafe(no_mangle)]
pub extern "C" fn zk_named_zero_a_by_code(
    n: usize,
    edges: &[u8],
    letters: &[u8],
    value: &mut u64,
    pairs: &mut usize,
) -> u32
    ensures { PackedValue (λ o. Reporting (ZeroAByCode (carbon_table letters.now) n edges.now) (CentredPairs n edges.now) o pairs.new) value.old value.new result }
{
    valued(
        counted(named::carbon::zero_a_by_code(n, edges, letters), pairs),
        value,
    )
}

#[unsafe(no_mangle)]
pub extern "C" fn zk_named_a_zero_by_code(
    n: usize,
    edges: &[u8],
    letters: &[u8],
    value: &mut u64,
    pairs: &mut usize,
) -> u32
    ensures { PackedValue (λ o. Reporting (AZeroByCode (carbon_table letters.now) n edges.now) (CentredPairs n edges.now) o pairs.new) value.old value.new result }
{
    valued(
        counted(named::carbon::a_zero_by_code(n, edges, letters), pairs),
        value,
    )
}

#[unsafe(no_mangle)]
pub extern "C" fn zk_named_plain_line(
    n: usize,
    edges: &[u8],
    letters: &[u8],
    out: &mut [u8],
    pairs: &mut usize,
) -> u32
    ensures { PackedAnswer (λ o. Reporting (WriteLine (carbon_table letters.now) n edges.now out.old out.new) (CentredPairs n edges.now) o pairs.new) result }
{
    answered(counted(named::carbon::plain_line(n, edges, letters, out), pairs))
}

#[unsafe(no_mangle)]
pub extern "C" fn zk_named_write_line(
    n: usize,
    edges: &[u8],
    letters: &[u8],
    out: &mut [u8],
    pairs: &mut usize,
) -> u32
    ensures { PackedAnswer (λ o. Reporting (NamedWriteLine n edges.now letters.now out.old out.new) (NamedMiddles n edges.now letters.now) o pairs.new) result }
{
    answered(counted(named::text::write_line(n, edges, letters, out), pairs))
}

#[unsafe(no_mangle)]
pub extern "C" fn zk_named_read_line(text: &[u8], out: &mut [u8], letters: &mut [u8]) -> u32
    ensures { PackedAnswer (NamedReadLine text.now out.old letters.old out.new letters.new) result }
{
    answered(named::text::read_line(text, out, letters))
}

// The two that refuse nothing as a whole.
#[unsafe(no_mangle)]
pub extern "C" fn zk_named_read_text(
    text: &[u8],
    records: &mut [u8],
    letters: &mut [u8],
    numbers: &mut [u8],
    places: &mut [usize],
    lines: &mut usize,
    at: &mut usize,
)
    ensures { NamedReadText
        text.now records.old letters.old numbers.old places.old
        records.new letters.new numbers.new places.new lines.new at.new }
{
    let p = named::text::read_text(text, records, letters, numbers, places);
    *lines = p.lines;
    *at = p.at;
}

#[unsafe(no_mangle)]
pub extern "C" fn zk_named_list(text: &[u8], from: usize, out: &mut [u8]) -> usize
    ensures { NamedListText text.now out.old out.new from result }
{
    named::text::list(text, from, out)
}
