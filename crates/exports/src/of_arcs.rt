// Directions, profile arcs and arcs.
ghost use Rattle.std.specs.Prelude.{◌≡◌, length};
ghost use Rattle.directions.specs.Directions as Directions;
ghost use Rattle.profile_arcs.specs.Profiles as Profiles;
ghost use Rattle.chord_counts.specs.Chords as Chords;
ghost use Rattle.arcs.specs.Entries as Arcs;
ghost use Rattle.arcs.specs.Entries.{inner_points_due};
ghost use Rattle.rows.specs.Rows as Rows;
ghost use Rattle.checked.specs.Answers.{number_of};
ghost use Rattle.c_arrays.specs.Records.{vec2, vec3, alone, of_vec3, after};
ghost use Rattle.c_arrays.specs.ArcRecords.{arc, profile_arc, bounds, of_arc, of_bounds, after_count};

use c_arrays::arc_records::{arc_of, bounds_of};
use c_arrays::{vec2_of, vec3_of};
use c_shapes::stored::{store, store_drawn};
use profile_arcs::ProfileArc;

// The vector of length 1 in the direction of v.
pub fn jr_unit(v: &[f64; 3], out: &mut [f64; 3]) -> u32
    ensures number { result ≡ number_of (Directions.unit_due (vec3 v.now)) }
    ensures out { out.new ≡ after of_vec3 out.old (Directions.unit_due (vec3 v.now)) }
{
    store(directions::unit(vec3_of(v)), out)
}

// The angle turned about `center` from a to b: above 0 and at most 2 pi where `ccw`, else below 0
// and at least -2 pi.
pub fn jr_profile_arc_turn(
    center: &[f64; 2],
    ccw: bool,
    a: &[f64; 2],
    b: &[f64; 2],
    out: &mut [f64; 1],
) -> u32
    ensures number { result ≡ number_of (Profiles.turn_due (profile_arc center.now ccw) (vec2 a.now) (vec2 b.now)) }
    ensures out { out.new ≡ after alone out.old (Profiles.turn_due (profile_arc center.now ccw) (vec2 a.now) (vec2 b.now)) }
{
    let arc = ProfileArc {
        center: vec2_of(center),
        ccw,
    };
    store(arc.turn(vec2_of(a), vec2_of(b)), out)
}

// The arc a run the other way: its axis turned round.
pub fn jr_arc_reversed(a: &[f64; 7], out: &mut [f64; 7]) -> u32
    ensures number { result ≡ number_of (Arcs.reversed_due (arc a.now)) }
    ensures out { out.new ≡ after of_arc out.old (Arcs.reversed_due (arc a.now)) }
{
    store(arc_of(a).reversed(), out)
}

// The angle of the arc a from `from` to `to`, above 0 and at most 2 pi: one point twice is a full
// circle.
pub fn jr_arc_sweep(a: &[f64; 7], from: &[f64; 3], to: &[f64; 3], out: &mut [f64; 1]) -> u32
    ensures number { result ≡ number_of (Arcs.sweep_due (arc a.now) (vec3 from.now) (vec3 to.now)) }
    ensures out { out.new ≡ after alone out.old (Arcs.sweep_due (arc a.now) (vec3 from.now) (vec3 to.now)) }
{
    store(arc_of(a).sweep(vec3_of(from), vec3_of(to)), out)
}

// The point of the arc a at the angle t from `from`, counterclockwise about its axis.
pub fn jr_arc_at(a: &[f64; 7], from: &[f64; 3], t: f64, out: &mut [f64; 3]) -> u32
    ensures number { result ≡ number_of (Arcs.at_due (arc a.now) (vec3 from.now) t) }
    ensures out { out.new ≡ after of_vec3 out.old (Arcs.at_due (arc a.now) (vec3 from.now) t) }
{
    store(arc_of(a).at(vec3_of(from), t), out)
}

// Widens the box b to hold the arc a from `from` to `to`.
pub fn jr_arc_extend_bounds(a: &[f64; 7], from: &[f64; 3], to: &[f64; 3], b: &mut [f64; 6]) -> u32
    ensures number { result ≡ number_of (Arcs.extend_due (arc a.now) (vec3 from.now) (vec3 to.now) (bounds b.old)) }
    ensures corners { b.new ≡ after of_bounds b.old (Arcs.extend_due (arc a.now) (vec3 from.now) (vec3 to.now) (bounds b.old)) }
{
    store(
        arc_of(a).extended(vec3_of(from), vec3_of(to), bounds_of(b)),
        b,
    )
}

// How many chords a full turn of a circle takes to stay within `chord` of it, at least 12 and at
// most 64.
pub fn jr_per_turn(radius: f64, chord: f64, out: &mut [f64; 1]) -> u32
    ensures number { result ≡ number_of (Chords.per_turn_due radius chord) }
    ensures out { out.new ≡ after alone out.old (Chords.per_turn_due radius chord) }
{
    store(chord_counts::per_turn(radius, chord), out)
}

// Writes the points of the arc a strictly between `from` and `to`, for as many chords a turn as
// `jr_per_turn` says, three numbers each from the start of `row`, and how many numbers these are to
// `written`.
pub fn jr_arc_inner_points(
    a: &[f64; 7],
    from: &[f64; 3],
    to: &[f64; 3],
    chord: f64,
    row: &mut [f64],
    written: &mut [u64; 1],
) -> u32
    ensures number { result ≡ number_of (inner_points_due (arc a.now) (vec3 from.now) (vec3 to.now) chord (length row.old)) }
    ensures row { row.new ≡ Rows.row_after (inner_points_due (arc a.now) (vec3 from.now) (vec3 to.now) chord (length row.old)) row.old }
    ensures written { written.new ≡ after_count written.old (inner_points_due (arc a.now) (vec3 from.now) (vec3 to.now) chord (length row.old)) }
{
    store_drawn(
        arc_of(a).write_inner_points(vec3_of(from), vec3_of(to), chord, row),
        written,
    )
}
