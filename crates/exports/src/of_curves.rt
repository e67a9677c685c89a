// Curves in space: an arc, or a piece of a development at a radius from its axis.
ghost use Rattle.std.specs.Prelude.{◌≡◌, length};
ghost use Rattle.rows.specs.Rows as Rows;
ghost use Rattle.curves.specs.Entries as Curves;
ghost use Rattle.curves.specs.Drawn.{inner_points_due};
ghost use Rattle.checked.specs.Answers.{number_of};
ghost use Rattle.c_arrays.specs.Records.{vec3, after, tag_due, stored};
ghost use Rattle.c_arrays.specs.ArcRecords.{rigid, bounds, of_arc, of_bounds, after_count};
ghost use Rattle.c_arrays.specs.TraceRecords.{some_due};
ghost use Rattle.c_shapes.specs.CurveRecords.{is_curve, curve, with_curve, curve_tags};

use c_arrays::arc_records::{bounds_of, rigid_of};
use c_arrays::{UNKNOWN_TAG, vec3_of};
use c_shapes::curve_records::known_curve;
use c_shapes::stored::{store, store_drawn, store_some, store_tagged};
use curves::drawn::write_inner_points;

// The curve c run the other way, and to `tags` the tags `arc` and `trace` of a piece; an arc has
// none.
pub fn jr_curve_reversed(
    c: &[f64; 27],
    kind: u32,
    arc: u32,
    trace: u32,
    out: &mut [f64; 27],
    tags: &mut [u32; 2],
) -> u32
    ensures number { result ≡ number_of (tag_due (is_curve kind arc trace) (Curves.reversed_due (curve c.now kind arc trace))) }
    ensures out { out.new ≡ stored with_curve out.old (tag_due (is_curve kind arc trace) (Curves.reversed_due (curve c.now kind arc trace))) }
    ensures tags { tags.new ≡ after curve_tags tags.old (tag_due (is_curve kind arc trace) (Curves.reversed_due (curve c.now kind arc trace))) }
{
    let Some(e) = known_curve(c, kind, arc, trace) else {
        return UNKNOWN_TAG;
    };
    store_tagged(e.reversed(), out, tags)
}

// The curve c moved by m, its tags as they were.
pub fn jr_curve_moved(
    c: &[f64; 27],
    kind: u32,
    arc: u32,
    trace: u32,
    m: &[f64; 12],
    out: &mut [f64; 27],
) -> u32
    ensures number { result ≡ number_of (tag_due (is_curve kind arc trace) (Curves.moved_due (curve c.now kind arc trace) (rigid m.now))) }
    ensures out { out.new ≡ stored with_curve out.old (tag_due (is_curve kind arc trace) (Curves.moved_due (curve c.now kind arc trace) (rigid m.now))) }
{
    let Some(e) = known_curve(c, kind, arc, trace) else {
        return UNKNOWN_TAG;
    };
    store(e.moved(rigid_of(m)), out)
}

// The arc that the curve c is; 255 for a piece, which is none.
pub fn jr_curve_arc(c: &[f64; 27], kind: u32, arc: u32, trace: u32, out: &mut [f64; 7]) -> u32
    ensures number { result ≡ number_of (tag_due (is_curve kind arc trace) (some_due (Curves.arc_due (curve c.now kind arc trace)))) }
    ensures out { out.new ≡ after of_arc out.old (tag_due (is_curve kind arc trace) (some_due (Curves.arc_due (curve c.now kind arc trace)))) }
{
    let Some(e) = known_curve(c, kind, arc, trace) else {
        return UNKNOWN_TAG;
    };
    store_some(e.arc(), out)
}

// Writes the points of the curve c strictly between `from` and `to`, a piece's between its own ends,
// for chords within `chord` of it, three numbers each from the start of `row`, and how many numbers
// these are to `written`.
pub fn jr_curve_inner_points(
    c: &[f64; 27],
    kind: u32,
    arc: u32,
    trace: u32,
    from: &[f64; 3],
    to: &[f64; 3],
    chord: f64,
    row: &mut [f64],
    written: &mut [u64; 1],
) -> u32
    ensures number { result ≡ number_of (tag_due (is_curve kind arc trace) (inner_points_due (curve c.now kind arc trace) (vec3 from.now) (vec3 to.now) chord (length row.old))) }
    ensures row { row.new ≡ Rows.row_after (tag_due (is_curve kind arc trace) (inner_points_due (curve c.now kind arc trace) (vec3 from.now) (vec3 to.now) chord (length row.old))) row.old }
    ensures written { written.new ≡ after_count written.old (tag_due (is_curve kind arc trace) (inner_points_due (curve c.now kind arc trace) (vec3 from.now) (vec3 to.now) chord (length row.old))) }
{
    let Some(e) = known_curve(c, kind, arc, trace) else {
        return UNKNOWN_TAG;
    };
    store_drawn(
        write_inner_points(e, vec3_of(from), vec3_of(to), chord, row),
        written,
    )
}

// Widens the box b to hold the curve c, an arc from `from` to `to`, a piece from its own start to
// its end.
pub fn jr_curve_extend_bounds(
    c: &[f64; 27],
    kind: u32,
    arc: u32,
    trace: u32,
    from: &[f64; 3],
    to: &[f64; 3],
    b: &mut [f64; 6],
) -> u32
    ensures number { result ≡ number_of (tag_due (is_curve kind arc trace) (Curves.extend_due (curve c.now kind arc trace) (vec3 from.now) (vec3 to.now) (bounds b.old))) }
    ensures corners { b.new ≡ after of_bounds b.old (tag_due (is_curve kind arc trace) (Curves.extend_due (curve c.now kind arc trace) (vec3 from.now) (vec3 to.now) (bounds b.old))) }
{
    let Some(e) = known_curve(c, kind, arc, trace) else {
        return UNKNOWN_TAG;
    };
    store(e.extended(vec3_of(from), vec3_of(to), bounds_of(b)), b)
}
