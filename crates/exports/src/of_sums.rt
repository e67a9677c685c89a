// What is integrated over faces.
ghost use Rattle.std.specs.Prelude.{◌≡◌, true};
ghost use Rattle.segments.specs.Entries as Segments;
ghost use Rattle.revolutions.specs.Revolutions as Revolutions;
ghost use Rattle.revolutions.specs.Closings.{close_due};
ghost use Rattle.walls.specs.Entries.{wall_due};
ghost use Rattle.checked.specs.Answers.{number_of};
ghost use Rattle.c_arrays.specs.Records.{vec3, after, tag_due};
ghost use Rattle.c_arrays.specs.ArcRecords.{arc};
ghost use Rattle.c_arrays.specs.FaceRecords.{cone, sums, of_sums};
ghost use Rattle.piece_arrays.specs.Arrays.{is_piece, piece};

use c_arrays::arc_records::arc_of;
use c_arrays::face_records::{cone_of, sums_of};
use c_arrays::{UNKNOWN_TAG, vec3_of};
use c_shapes::piece_records::known_piece;
use c_shapes::stored::store;
use revolutions::closings;
use walls::cut_walls;

// Corrects the sums `acc` of a plane face, o being their point and n the face's unit normal, for an
// edge that is no chord from u to v but the arc a about k.
pub fn jr_segment(
    acc: &mut [f64; 8],
    a: &[f64; 7],
    k: &[f64; 3],
    u: &[f64; 3],
    v: &[f64; 3],
    n: &[f64; 3],
    o: &[f64; 3],
) -> u32
    ensures number { result ≡ number_of (Segments.segment_due (arc a.now) (vec3 k.now) (vec3 u.now) (vec3 v.now) (vec3 n.now) (vec3 o.now) (sums acc.old)) }
    ensures acc { acc.new ≡ after of_sums acc.old (Segments.segment_due (arc a.now) (vec3 k.now) (vec3 u.now) (vec3 v.now) (vec3 n.now) (vec3 o.now) (sums acc.old)) }
{
    store(
        segments::with_segment(
            sums_of(acc),
            arc_of(a),
            vec3_of(k),
            vec3_of(u),
            vec3_of(v),
            vec3_of(n),
            vec3_of(o),
        ),
        acc,
    )
}

// Opens the running sums of a face on the cone c, o being their point.
pub fn jr_revolution_open(c: &[f64; 8], o: &[f64; 3], running: &mut [f64; 8]) -> u32
    ensures number { result ≡ number_of (Revolutions.open_due (cone c.now true) (vec3 o.now)) }
    ensures running { running.new ≡ after of_sums running.old (Revolutions.open_due (cone c.now true) (vec3 o.now)) }
{
    store(revolutions::open(cone_of(c, true), vec3_of(o)), running)
}

// Adds the arc a from u to v, an edge of the face on the cone c, to the running sums, o being their
// point.
pub fn jr_revolution_add_arc(
    c: &[f64; 8],
    o: &[f64; 3],
    a: &[f64; 7],
    u: &[f64; 3],
    v: &[f64; 3],
    running: &mut [f64; 8],
) -> u32
    ensures number { result ≡ number_of (Revolutions.add_due (cone c.now true) (vec3 o.now) (Revolutions.arc (arc a.now) (vec3 u.now) (vec3 v.now)) (sums running.old)) }
    ensures running { running.new ≡ after of_sums running.old (Revolutions.add_due (cone c.now true) (vec3 o.now) (Revolutions.arc (arc a.now) (vec3 u.now) (vec3 v.now)) (sums running.old)) }
{
    store(
        revolutions::add_arc(
            sums_of(running),
            cone_of(c, true),
            arc_of(a),
            vec3_of(u),
            vec3_of(v),
            vec3_of(o),
        ),
        running,
    )
}

// Adds the piece w, an edge of the face on the cone c, to the running sums, o being their point.
pub fn jr_revolution_add_piece(
    c: &[f64; 8],
    o: &[f64; 3],
    w: &[f64; 26],
    arc: u32,
    trace: u32,
    running: &mut [f64; 8],
) -> u32
    ensures number { result ≡ number_of (tag_due (is_piece arc trace) (Revolutions.add_due (cone c.now true) (vec3 o.now) (Revolutions.piece (piece w.now arc trace)) (sums running.old))) }
    ensures running { running.new ≡ after of_sums running.old (tag_due (is_piece arc trace) (Revolutions.add_due (cone c.now true) (vec3 o.now) (Revolutions.piece (piece w.now arc trace)) (sums running.old))) }
{
    let Some(p) = known_piece(w, arc, trace) else {
        return UNKNOWN_TAG;
    };
    store(
        revolutions::add_piece(sums_of(running), cone_of(c, true), p, vec3_of(o)),
        running,
    )
}

// Adds the running sums of a face on the cone c, with the body inside where `convex`, to the sums
// `acc`.
pub fn jr_revolution_close(
    c: &[f64; 8],
    convex: bool,
    running: &[f64; 8],
    acc: &mut [f64; 8],
) -> u32
    ensures number { result ≡ number_of (close_due (cone c.now convex) (sums running.now) (sums acc.old)) }
    ensures acc { acc.new ≡ after of_sums acc.old (close_due (cone c.now convex) (sums running.now) (sums acc.old)) }
{
    store(
        closings::closed(sums_of(acc), cone_of(c, convex), sums_of(running)),
        acc,
    )
}

// Adds the wall over the piece w, from r0 to r1 away from the axis, to the sums `acc`, o being
// their point.
pub fn jr_wall(
    acc: &mut [f64; 8],
    w: &[f64; 26],
    arc: u32,
    trace: u32,
    r0: f64,
    r1: f64,
    o: &[f64; 3],
) -> u32
    ensures number { result ≡ number_of (tag_due (is_piece arc trace) (wall_due (piece w.now arc trace) r0 r1 (vec3 o.now) (sums acc.old))) }
    ensures acc { acc.new ≡ after of_sums acc.old (tag_due (is_piece arc trace) (wall_due (piece w.now arc trace) r0 r1 (vec3 o.now) (sums acc.old))) }
{
    let Some(p) = known_piece(w, arc, trace) else {
        return UNKNOWN_TAG;
    };
    store(
        cut_walls::with_cut_wall(sums_of(acc), p, r0, r1, vec3_of(o)),
        acc,
    )
}
