// The public calls as C functions: include/zurkhovel.h declares them. Each makes its call and hands the answer on in one whole number: 256 times
// the refusal number plus the place, or the bytes written. The `ensures` of each is the promise of the call behind it, through `Packing`. A call
// that reports how many pairs it looked at has two: the one whose name ends in `_pairs` hands that number over through a lent place. The four that
// an exporter's host needs are of edition 1, and each has a second, whose name ends in `_edition`; every other is told the edition.
// Those on skeletons with named atoms are in `atoms`. C has no generic calls, so each is written out.
#![tactic(auto)]

mod atoms;

ghost use Rattle.form.specs.document.Form.{IsNTuple, IsCentred};
ghost use Rattle.form_coder.specs.document.Pairs.{CentredPairs, NTuplePairs};
ghost use Rattle.refusal.specs.document.Reported.{Reporting};
ghost use Rattle.zurkhovel.specs.document.Reported.{ReportedAtRoot, OfBoth};
ghost use Rattle.zurkhovel.specs.document.Codes.{CheckCode, DecodeCode, DecodeForm, CheckEdges, RootedCode, FormCode};
ghost use Rattle.zurkhovel.specs.document.Same.{SameSkeleton};
ghost use Rattle.zurkhovel.specs.document.Maps.{HandOut, CheckRenumbering};
ghost use Rattle.zurkhovel.specs.document.Bits.{Pack, Unpack, Whole, Unwhole, InFraction, Unfraction};
ghost use Rattle.zurkhovel.specs.document.Matrix.{DecodeCam, DecodeZeroA, DecodeAZero, Cam, ZeroA, AZero, CamByCode, ZeroAByCode, AZeroByCode};
ghost use Rattle.zurkhovel.specs.document.Alike.{EqualVertices};
ghost use Rattle.zurkhovel.specs.document.Lines.{ReadLine, WriteLine, ReadText, ListText};
ghost use Rattle.zurkhovel.specs.document.InEdition.{edge_table};
ghost use Rattle.texts.specs.document.Demand.{Counted};
ghost use Rattle.packing.specs.document.Packing.{PackedAnswer, PackedFinding, PackedMapping, PackedValue};

use packing::{answered, counted, found, judged, passed, sent, uncounted, valued};

#[unsafe(no_mangle)]
pub extern "C" fn zk_check_code(edition: usize, code: &[u8]) -> u32
    ensures { PackedAnswer (CheckCode edition code.now) result }
{
    passed(zurkhovel::codes::check_code(edition, code))
}

#[unsafe(no_mangle)]
pub extern "C" fn zk_decode_code(edition: usize, code: &[u8], out: &mut [u8]) -> u32
    ensures { PackedAnswer (DecodeCode edition code.now out.old out.new) result }
{
    answered(zurkhovel::codes::decode_code(edition, code, out))
}

#[unsafe(no_mangle)]
pub extern "C" fn zk_decode_n_tuple(edition: usize, code: &[u8], out: &mut [u8]) -> u32
    ensures { PackedAnswer (DecodeForm edition IsNTuple code.now out.old out.new) result }
{
    answered(zurkhovel::codes::decode_n_tuple(edition, code, out))
}

#[unsafe(no_mangle)]
pub extern "C" fn zk_decode_centred(edition: usize, code: &[u8], out: &mut [u8]) -> u32
    ensures { PackedAnswer (DecodeForm edition IsCentred code.now out.old out.new) result }
{
    answered(zurkhovel::codes::decode_centred(edition, code, out))
}

#[unsafe(no_mangle)]
pub extern "C" fn zk_check_edges(edition: usize, n: usize, edges: &[u8], root: usize) -> u32
    ensures { PackedAnswer (CheckEdges edition n edges.now root) result }
{
    passed(zurkhovel::codes::check_edges(edition, n, edges, root))
}

#[unsafe(no_mangle)]
pub extern "C" fn zk_rooted_code(
    edition: usize,
    n: usize,
    edges: &[u8],
    root: usize,
    out: &mut [u8],
) -> u32
    ensures { PackedAnswer (RootedCode edition n edges.now root out.old out.new) result }
{
    answered(uncounted(zurkhovel::codes::rooted_code(edition, n, edges, root, out)))
}

#[unsafe(no_mangle)]
pub extern "C" fn zk_rooted_code_pairs(
    edition: usize,
    n: usize,
    edges: &[u8],
    root: usize,
    out: &mut [u8],
    pairs: &mut usize,
) -> u32
    ensures { PackedAnswer (λ o. Reporting (RootedCode edition n edges.now root out.old out.new) (ReportedAtRoot n edges.now root) o pairs.new) result }
{
    answered(counted(
        zurkhovel::codes::rooted_code(edition, n, edges, root, out),
        pairs,
    ))
}

#[unsafe(no_mangle)]
pub extern "C" fn zk_n_tuple_code(edition: usize, n: usize, edges: &[u8], out: &mut [u8]) -> u32
    ensures { PackedAnswer (FormCode edition IsNTuple n edges.now out.old out.new) result }
{
    answered(uncounted(zurkhovel::codes::n_tuple_code(edition, n, edges, out)))
}

#[unsafe(no_mangle)]
pub extern "C" fn zk_n_tuple_code_pairs(
    edition: usize,
    n: usize,
    edges: &[u8],
    out: &mut [u8],
    pairs: &mut usize,
) -> u32
    ensures { PackedAnswer (λ o. Reporting (FormCode edition IsNTuple n edges.now out.old out.new) (NTuplePairs n edges.now) o pairs.new) result }
{
    answered(counted(
        zurkhovel::codes::n_tuple_code(edition, n, edges, out),
        pairs,
    ))
}

#[unsafe(no_mangle)]
pub extern "C" fn zk_centred_code(edition: usize, n: usize, edges: &[u8], out: &mut [u8]) -> u32
    ensures { PackedAnswer (FormCode edition IsCentred n edges.now out.old out.new) result }
{
    answered(uncounted(zurkhovel::codes::centred_code(edition, n, edges, out)))
}

#[unsafe(no_mangle)]
pub extern "C" fn zk_centred_code_pairs(
    edition: usize,
    n: usize,
    edges: &[u8],
    out: &mut [u8],
    pairs: &mut usize,
) -> u32
    ensures { PackedAnswer (λ o. Reporting (FormCode edition IsCentred n edges.now out.old out.new) (CentredPairs n edges.now) o pairs.new) result }
{
    answered(counted(
        zurkhovel::codes::centred_code(edition, n, edges, out),
        pairs,
    ))
}

#[unsafe(no_mangle)]
pub extern "C" fn zk_same_skeleton(n1: usize, edges1: &[u8], n2: usize, edges2: &[u8]) -> u32
    ensures { PackedFinding (SameSkeleton 1 n1 edges1.now n2 edges2.now) result }
{
    found(uncounted(zurkhovel::codes::same_skeleton(1, n1, edges1, n2, edges2)))
}

#[unsafe(no_mangle)]
pub extern "C" fn zk_same_skeleton_edition(
    edition: usize,
    n1: usize,
    edges1: &[u8],
    n2: usize,
    edges2: &[u8],
) -> u32
    ensures { PackedFinding (SameSkeleton edition n1 edges1.now n2 edges2.now) result }
{
    found(uncounted(zurkhovel::codes::same_skeleton(edition, n1, edges1, n2, edges2)))
}

#[unsafe(no_mangle)]
pub extern "C" fn zk_same_skeleton_pairs(
    edition: usize,
    n1: usize,
    edges1: &[u8],
    n2: usize,
    edges2: &[u8],
    pairs: &mut usize,
) -> u32
    ensures { PackedFinding (λ o. Reporting (SameSkeleton edition n1 edges1.now n2 edges2.now) (OfBoth n1 edges1.now n2 edges2.now) o pairs.new) result }
{
    found(counted(
        zurkhovel::codes::same_skeleton(edition, n1, edges1, n2, edges2),
        pairs,
    ))
}

#[unsafe(no_mangle)]
pub extern "C" fn zk_renumbering(
    edition: usize,
    n1: usize,
    edges1: &[u8],
    n2: usize,
    edges2: &[u8],
    out: &mut [u8],
) -> u32
    ensures { PackedMapping (HandOut edition n1 edges1.now n2 edges2.now out.old out.new) result }
{
    sent(uncounted(zurkhovel::maps::renumbering(edition, n1, edges1, n2, edges2, out)))
}

#[unsafe(no_mangle)]
pub extern "C" fn zk_renumbering_pairs(
    edition: usize,
    n1: usize,
    edges1: &[u8],
    n2: usize,
    edges2: &[u8],
    out: &mut [u8],
    pairs: &mut usize,
) -> u32
    ensures { PackedMapping (λ o. Reporting (HandOut edition n1 edges1.now n2 edges2.now out.old out.new) (OfBoth n1 edges1.now n2 edges2.now) o pairs.new) result }
{
    sent(counted(
        zurkhovel::maps::renumbering(edition, n1, edges1, n2, edges2, out),
        pairs,
    ))
}

#[unsafe(no_mangle)]
pub extern "C" fn zk_check_renumbering(
    edition: usize,
    n1: usize,
    edges1: &[u8],
    n2: usize,
    edges2: &[u8],
    map: &[u8],
) -> u32
    ensures { PackedMapping (CheckRenumbering edition n1 edges1.now n2 edges2.now map.now) result }
{
    judged(zurkhovel::maps::check_renumbering(edition, n1, edges1, n2, edges2, map))
}

#[unsafe(no_mangle)]
pub extern "C" fn zk_pack(n: usize, edges: &[u8], root: usize, out: &mut [u8]) -> u32
    ensures { PackedAnswer (Pack (edge_table 1) n edges.now root out.old out.new) result }
{
    answered(uncounted(zurkhovel::bit_tuple::pack(1, n, edges, root, out)))
}

#[unsafe(no_mangle)]
pub extern "C" fn zk_pack_edition(
    edition: usize,
    n: usize,
    edges: &[u8],
    root: usize,
    out: &mut [u8],
) -> u32
    ensures { PackedAnswer (Pack (edge_table edition) n edges.now root out.old out.new) result }
{
    answered(uncounted(zurkhovel::bit_tuple::pack(edition, n, edges, root, out)))
}

#[unsafe(no_mangle)]
pub extern "C" fn zk_pack_pairs(
    edition: usize,
    n: usize,
    edges: &[u8],
    root: usize,
    out: &mut [u8],
    pairs: &mut usize,
) -> u32
    ensures { PackedAnswer (λ o. Reporting (Pack (edge_table edition) n edges.now root out.old out.new) (ReportedAtRoot n edges.now root) o pairs.new) result }
{
    answered(counted(
        zurkhovel::bit_tuple::pack(edition, n, edges, root, out),
        pairs,
    ))
}

#[unsafe(no_mangle)]
pub extern "C" fn zk_unpack(edition: usize, bytes: &[u8], out: &mut [u8]) -> u32
    ensures { PackedAnswer (Unpack edition bytes.now out.old out.new) result }
{
    answered(zurkhovel::bit_tuple::unpack(edition, bytes, out))
}

#[unsafe(no_mangle)]
pub extern "C" fn zk_whole(
    edition: usize,
    n: usize,
    edges: &[u8],
    root: usize,
    value: &mut u64,
) -> u32
    ensures { PackedValue (Whole (edge_table edition) n edges.now root) value.old value.new result }
{
    valued(
        uncounted(zurkhovel::bit_tuple::whole(edition, n, edges, root)),
        value,
    )
}

#[unsafe(no_mangle)]
pub extern "C" fn zk_whole_pairs(
    edition: usize,
    n: usize,
    edges: &[u8],
    root: usize,
    value: &mut u64,
    pairs: &mut usize,
) -> u32
    ensures { PackedValue (λ o. Reporting (Whole (edge_table edition) n edges.now root) (ReportedAtRoot n edges.now root) o pairs.new) value.old value.new result }
{
    valued(
        counted(zurkhovel::bit_tuple::whole(edition, n, edges, root), pairs),
        value,
    )
}

#[unsafe(no_mangle)]
pub extern "C" fn zk_unwhole(edition: usize, n: usize, value: u64, out: &mut [u8]) -> u32
    ensures { PackedAnswer (Unwhole edition n value out.old out.new) result }
{
    answered(zurkhovel::bit_tuple::unwhole(edition, n, value, out))
}

#[unsafe(no_mangle)]
pub extern "C" fn zk_fraction(
    edition: usize,
    n: usize,
    edges: &[u8],
    root: usize,
    value: &mut f64,
) -> u32
    ensures { PackedValue (InFraction (edge_table edition) n edges.now root) value.old value.new result }
{
    valued(
        uncounted(zurkhovel::bit_tuple::fraction(edition, n, edges, root)),
        value,
    )
}

#[unsafe(no_mangle)]
pub extern "C" fn zk_fraction_pairs(
    edition: usize,
    n: usize,
    edges: &[u8],
    root: usize,
    value: &mut f64,
    pairs: &mut usize,
) -> u32
    ensures { PackedValue (λ o. Reporting (InFraction (edge_table edition) n edges.now root) (ReportedAtRoot n edges.now root) o pairs.new) value.old value.new result }
{
    valued(
        counted(
            zurkhovel::bit_tuple::fraction(edition, n, edges, root),
            pairs,
        ),
        value,
    )
}

#[unsafe(no_mangle)]
pub extern "C" fn zk_unfraction(edition: usize, x: f64, out: &mut [u8]) -> u32
    ensures { PackedAnswer (Unfraction edition x out.old out.new) result }
{
    answered(zurkhovel::bit_tuple::unfraction(edition, x, out))
}

#[unsafe(no_mangle)]
pub extern "C" fn zk_cam(edition: usize, n: usize, edges: &[u8], out: &mut [u8]) -> u32
    ensures { PackedAnswer (Cam (edge_table edition) n edges.now out.old out.new) result }
{
    answered(zurkhovel::matrix::cam(edition, n, edges, out))
}

#[unsafe(no_mangle)]
pub extern "C" fn zk_zero_a(edition: usize, n: usize, edges: &[u8], value: &mut u64) -> u32
    ensures { PackedValue (ZeroA (edge_table edition) n edges.now) value.old value.new result }
{
    valued(zurkhovel::matrix::zero_a(edition, n, edges), value)
}

#[unsafe(no_mangle)]
pub extern "C" fn zk_a_zero(edition: usize, n: usize, edges: &[u8], value: &mut u64) -> u32
    ensures { PackedValue (AZero (edge_table edition) n edges.now) value.old value.new result }
{
    valued(zurkhovel::matrix::a_zero(edition, n, edges), value)
}

#[unsafe(no_mangle)]
pub extern "C" fn zk_cam_by_code(edition: usize, n: usize, edges: &[u8], out: &mut [u8]) -> u32
    ensures { PackedAnswer (CamByCode (edge_table edition) n edges.now out.old out.new) result }
{
    answered(uncounted(zurkhovel::matrix::cam_by_code(edition, n, edges, out)))
}

#[unsafe(no_mangle)]
pub extern "C" fn zk_cam_by_code_pairs(
    edition: usize,
    n: usize,
    edges: &[u8],
    out: &mut [u8],
    pairs: &mut usize,
) -> u32
    ensures { PackedAnswer (λ o. Reporting (CamByCode (edge_table edition) n edges.now out.old out.new) (CentredPairs n edges.now) o pairs.new) result }
{
    answered(counted(
        zurkhovel::matrix::cam_by_code(edition, n, edges, out),
        pairs,
    ))
}

#[unsafe(no_mangle)]
pub extern "C" fn zk_zero_a_by_code(edition: usize, n: usize, edges: &[u8], value: &mut u64) -> u32
    ensures { PackedValue (ZeroAByCode (edge_table edition) n edges.now) value.old value.new result }
{
    valued(
        uncounted(zurkhovel::matrix::zero_a_by_code(edition, n, edges)),
        value,
    )
}

#[unsafe(no_mangle)]
pub extern "C" fn zk_zero_a_by_code_pairs(
    edition: usize,
    n: usize,
    edges: &[u8],
    value: &mut u64,
    pairs: &mut usize,
) -> u32
    ensures { PackedValue (λ o. Reporting (ZeroAByCode (edge_table edition) n edges.now) (CentredPairs n edges.now) o pairs.new) value.old value.new result }
{
    valued(
        counted(zurkhovel::matrix::zero_a_by_code(edition, n, edges), pairs),
        value,
    )
}

#[unsafe(no_mangle)]
pub extern "C" fn zk_a_zero_by_code(edition: usize, n: usize, edges: &[u8], value: &mut u64) -> u32
    ensures { PackedValue (AZeroByCode (edge_table edition) n edges.now) value.old value.new result }
{
    valued(
        uncounted(zurkhovel::matrix::a_zero_by_code(edition, n, edges)),
        value,
    )
}

#[unsafe(no_mangle)]
pub extern "C" fn zk_a_zero_by_code_pairs(
    edition: usize,
    n: usize,
    edges: &[u8],
    value: &mut u64,
    pairs: &mut usize,
) -> u32
    ensures { PackedValue (λ o. Reporting (AZeroByCode (edge_table edition) n edges.now) (CentredPairs n edges.now) o pairs.new) value.old value.new result }
{
    valued(
        counted(zurkhovel::matrix::a_zero_by_code(edition, n, edges), pairs),
        value,
    )
}

#[unsafe(no_mangle)]
pub extern "C" fn zk_decode_cam(edition: usize, n: usize, cam: &[u8], out: &mut [u8]) -> u32
    ensures { PackedAnswer (DecodeCam edition n cam.now out.old out.new) result }
{
    answered(zurkhovel::matrix::decode_cam(edition, n, cam, out))
}

#[unsafe(no_mangle)]
pub extern "C" fn zk_decode_zero_a(edition: usize, n: usize, value: u64, out: &mut [u8]) -> u32
    ensures { PackedAnswer (DecodeZeroA edition n value out.old out.new) result }
{
    answered(zurkhovel::matrix::decode_zero_a(edition, n, value, out))
}

#[unsafe(no_mangle)]
pub extern "C" fn zk_decode_a_zero(edition: usize, n: usize, value: u64, out: &mut [u8]) -> u32
    ensures { PackedAnswer (DecodeAZero edition n value out.old out.new) result }
{
    answered(zurkhovel::matrix::decode_a_zero(edition, n, value, out))
}

#[unsafe(no_mangle)]
pub extern "C" fn zk_equal_vertices(edition: usize, n: usize, edges: &[u8], out: &mut [u8]) -> u32
    ensures { PackedAnswer (EqualVertices edition n edges.now out.old out.new) result }
{
    answered(uncounted(zurkhovel::alike::equal_vertices(edition, n, edges, out)))
}

#[unsafe(no_mangle)]
pub extern "C" fn zk_equal_vertices_pairs(
    edition: usize,
    n: usize,
    edges: &[u8],
    out: &mut [u8],
    pairs: &mut usize,
) -> u32
    ensures { PackedAnswer (λ o. Reporting (EqualVertices edition n edges.now out.old out.new) (CentredPairs n edges.now) o pairs.new) result }
{
    answered(counted(
        zurkhovel::alike::equal_vertices(edition, n, edges, out),
        pairs,
    ))
}

#[unsafe(no_mangle)]
pub extern "C" fn zk_read_line(text: &[u8], out: &mut [u8]) -> u32
    ensures { PackedAnswer (ReadLine 1 text.now out.old out.new) result }
{
    answered(zurkhovel::text::read_line(1, text, out))
}

#[unsafe(no_mangle)]
pub extern "C" fn zk_read_line_edition(edition: usize, text: &[u8], out: &mut [u8]) -> u32
    ensures { PackedAnswer (ReadLine edition text.now out.old out.new) result }
{
    answered(zurkhovel::text::read_line(edition, text, out))
}

#[unsafe(no_mangle)]
pub extern "C" fn zk_write_line(n: usize, edges: &[u8], out: &mut [u8]) -> u32
    ensures { PackedAnswer (WriteLine (edge_table 1) n edges.now out.old out.new) result }
{
    answered(uncounted(zurkhovel::text::write_line(1, n, edges, out)))
}

#[unsafe(no_mangle)]
pub extern "C" fn zk_write_line_edition(
    edition: usize,
    n: usize,
    edges: &[u8],
    out: &mut [u8],
) -> u32
    ensures { PackedAnswer (WriteLine (edge_table edition) n edges.now out.old out.new) result }
{
    answered(uncounted(zurkhovel::text::write_line(edition, n, edges, out)))
}

#[unsafe(no_mangle)]
pub extern "C" fn zk_write_line_pairs(
    edition: usize,
    n: usize,
    edges: &[u8],
    out: &mut [u8],
    pairs: &mut usize,
) -> u32
    ensures { PackedAnswer (λ o. Reporting (WriteLine (edge_table edition) n edges.now out.old out.new) (CentredPairs n edges.now) o pairs.new) result }
{
    answered(counted(zurkhovel::text::write_line(edition, n, edges, out), pairs))
}

// The three that refuse nothing as a whole.
#[unsafe(no_mangle)]
pub extern "C" fn zk_read_text(
    edition: usize,
    text: &[u8],
    records: &mut [u8],
    numbers: &mut [u8],
    places: &mut [usize],
    lines: &mut usize,
    at: &mut usize,
)
    ensures { ReadText edition text.now records.old numbers.old places.old
        records.new numbers.new places.new lines.new at.new }
{
    let p = zurkhovel::text::read_text(edition, text, records, numbers, places);
    *lines = p.lines;
    *at = p.at;
}

#[unsafe(no_mangle)]
pub extern "C" fn zk_count(numbers: &[u8], read: &mut usize, refused: &mut usize)
    ensures { Counted numbers.now read.new refused.new }
{
    let t = zurkhovel::text::count(numbers);
    *read = t.read;
    *refused = t.refused;
}

#[unsafe(no_mangle)]
pub extern "C" fn zk_list(text: &[u8], from: usize, out: &mut [u8]) -> usize
    ensures { ListText text.now out.old out.new from result }
{
    zurkhovel::text::list(text, from, out)
}
