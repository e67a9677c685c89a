// Pieces of a development.
ghost use Rattle.std.specs.Prelude.{◌≡◌};
ghost use Rattle.pieces.specs.Entries as Pieces;
ghost use Rattle.checked.specs.Answers.{number_of};
ghost use Rattle.c_arrays.specs.Records.{vec2, alone, of_vec2, of_vec3, after, tag_due, stored};
ghost use Rattle.piece_arrays.specs.Arrays.{is_piece, piece, tags_of, with_piece};
ghost use Rattle.c_shapes.specs.PieceRecords.{of_place, of_measure, of_box};

use c_arrays::{UNKNOWN_TAG, vec2_of};
use c_shapes::piece_records::known_piece;
use c_shapes::stored::{store, store_tagged};

// The box of the piece w in its development: the least and the greatest u, the least and the
// greatest v; a straight piece's points, t from 0 to 1, lie at most 2^-33 mm outside it.
pub fn jr_piece_uv_box(w: &[f64; 26], arc: u32, trace: u32, out: &mut [f64; 4]) -> u32
    ensures number { result ≡ number_of (tag_due (is_piece arc trace) (Pieces.uv_box_due (piece w.now arc trace))) }
    ensures out { out.new ≡ after of_box out.old (tag_due (is_piece arc trace) (Pieces.uv_box_due (piece w.now arc trace))) }
{
    let Some(c) = known_piece(w, arc, trace) else {
        return UNKNOWN_TAG;
    };
    store(c.uv_box(), out)
}

// How many chords through the piece w stay within `deviation` of it in its development.
pub fn jr_piece_polyline(
    w: &[f64; 26],
    arc: u32,
    trace: u32,
    deviation: f64,
    out: &mut [u64; 1],
) -> u32
    ensures number { result ≡ number_of (tag_due (is_piece arc trace) (Pieces.polyline_due (piece w.now arc trace) deviation)) }
    ensures out { out.new ≡ after alone out.old (tag_due (is_piece arc trace) (Pieces.polyline_due (piece w.now arc trace) deviation)) }
{
    let Some(c) = known_piece(w, arc, trace) else {
        return UNKNOWN_TAG;
    };
    store(c.polyline(deviation), out)
}

// The piece w run the other way, and to `tags` its tags `arc` and `trace`.
pub fn jr_piece_reversed(
    w: &[f64; 26],
    arc: u32,
    trace: u32,
    out: &mut [f64; 26],
    tags: &mut [u32; 2],
) -> u32
    ensures number { result ≡ number_of (tag_due (is_piece arc trace) (Pieces.reversed_due (piece w.now arc trace))) }
    ensures out { out.new ≡ stored with_piece out.old (tag_due (is_piece arc trace) (Pieces.reversed_due (piece w.now arc trace))) }
    ensures tags { tags.new ≡ after tags_of tags.old (tag_due (is_piece arc trace) (Pieces.reversed_due (piece w.now arc trace))) }
{
    let Some(c) = known_piece(w, arc, trace) else {
        return UNKNOWN_TAG;
    };
    store_tagged(c.reversed(), out, tags)
}

// The point (u, v) of the piece w at t, which is 0 at its start and 1 at its end, and its
// derivative.
pub fn jr_piece_at(w: &[f64; 26], arc: u32, trace: u32, t: f64, out: &mut [f64; 4]) -> u32
    ensures number { result ≡ number_of (tag_due (is_piece arc trace) (Pieces.at_due (piece w.now arc trace) t)) }
    ensures out { out.new ≡ after of_place out.old (tag_due (is_piece arc trace) (Pieces.at_due (piece w.now arc trace) t)) }
{
    let Some(c) = known_piece(w, arc, trace) else {
        return UNKNOWN_TAG;
    };
    store(c.at(t), out)
}

// The second derivative of the piece w at t.
pub fn jr_piece_second(w: &[f64; 26], arc: u32, trace: u32, t: f64, out: &mut [f64; 2]) -> u32
    ensures number { result ≡ number_of (tag_due (is_piece arc trace) (Pieces.second_due (piece w.now arc trace) t)) }
    ensures out { out.new ≡ after of_vec2 out.old (tag_due (is_piece arc trace) (Pieces.second_due (piece w.now arc trace) t)) }
{
    let Some(c) = known_piece(w, arc, trace) else {
        return UNKNOWN_TAG;
    };
    store(c.second(t), out)
}

// The unit normal of the wall over the piece w at p, r away from the axis: to the left of the way
// that the piece runs.
pub fn jr_piece_normal(
    w: &[f64; 26],
    arc: u32,
    trace: u32,
    p: &[f64; 2],
    r: f64,
    out: &mut [f64; 3],
) -> u32
    ensures number { result ≡ number_of (tag_due (is_piece arc trace) (Pieces.normal_due (piece w.now arc trace) (vec2 p.now) r)) }
    ensures out { out.new ≡ after of_vec3 out.old (tag_due (is_piece arc trace) (Pieces.normal_due (piece w.now arc trace) (vec2 p.now) r)) }
{
    let Some(c) = known_piece(w, arc, trace) else {
        return UNKNOWN_TAG;
    };
    store(c.normal(vec2_of(p), r), out)
}

// The radius of the piece w, 0 where it is no arc, the angle that it turns, and its length.
pub fn jr_piece_measure(w: &[f64; 26], arc: u32, trace: u32, out: &mut [f64; 3]) -> u32
    ensures number { result ≡ number_of (tag_due (is_piece arc trace) (Pieces.measure_due (piece w.now arc trace))) }
    ensures out { out.new ≡ after of_measure out.old (tag_due (is_piece arc trace) (Pieces.measure_due (piece w.now arc trace))) }
{
    let Some(c) = known_piece(w, arc, trace) else {
        return UNKNOWN_TAG;
    };
    store(c.measure(), out)
}

// How many parts the piece w is integrated over, none of which turns more than an eighth of a
// circle.
pub fn jr_piece_quadrature_pieces(w: &[f64; 26], arc: u32, trace: u32, out: &mut [u64; 1]) -> u32
    ensures number { result ≡ number_of (tag_due (is_piece arc trace) (Pieces.quadrature_due (piece w.now arc trace))) }
    ensures out { out.new ≡ after alone out.old (tag_due (is_piece arc trace) (Pieces.quadrature_due (piece w.now arc trace))) }
{
    let Some(c) = known_piece(w, arc, trace) else {
        return UNKNOWN_TAG;
    };
    store(c.quadrature_pieces(), out)
}

// How many chords within `chord` of it draw the piece w, r away from the axis.
pub fn jr_piece_chords(
    w: &[f64; 26],
    arc: u32,
    trace: u32,
    r: f64,
    chord: f64,
    out: &mut [u64; 1],
) -> u32
    ensures number { result ≡ number_of (tag_due (is_piece arc trace) (Pieces.chords_due (piece w.now arc trace) r chord)) }
    ensures out { out.new ≡ after alone out.old (tag_due (is_piece arc trace) (Pieces.chords_due (piece w.now arc trace) r chord)) }
{
    let Some(c) = known_piece(w, arc, trace) else {
        return UNKNOWN_TAG;
    };
    store(c.chords(r, chord), out)
}
