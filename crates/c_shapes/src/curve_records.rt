// Curves as arrays of numbers.
#![tactic(auto, unfolding(c_arrays::specs::Records::over, c_arrays::specs::Records::known, crate::specs::CurveRecords::is_curve, crate::specs::CurveRecords::with_curve, crate::specs::CurveRecords::curve_tags))]

ghost use Rattle.std.specs.Prelude.{◌≡◌};
ghost use Rattle.c_arrays.specs.Records.{known};
ghost use Rattle.c_shapes.specs.CurveRecords.{is_curve, curve, with_curve, curve_tags};

use crate::stored::{Stored, Tagged};
use c_arrays::arc_records::{arc_at, put_arc};
use curves::{Curve, RolledAt};
use piece_arrays::{is_piece, piece_at, put_piece};

// The curve of an array: an arc where the tag is 0, whose other tags are not read, else a piece.
#[inline(always)]
pub fn curve_of(a: &[f64; 27], kind: u32, arc: u32, trace: u32) -> Curve
    ensures { result ≡ curve a.now kind arc trace }
{
    match kind {
        0 => Curve::Arc(arc_at(a)),
        _ => Curve::Rolled(RolledAt {
            piece: piece_at(a, arc, trace),
            radius: a[26],
        }),
    }
}

// The same where the tags are known: 0 an arc, 1 a piece.
#[inline(always)]
pub fn known_curve(a: &[f64; 27], kind: u32, arc: u32, trace: u32) -> Option<Curve>
    ensures { result ≡ known (is_curve kind arc trace) (curve a.now kind arc trace) }
{
    match kind {
        0 => Some(curve_of(a, kind, arc, trace)),
        1 if is_piece(arc, trace) => Some(curve_of(a, kind, arc, trace)),
        _ => None,
    }
}

impl Stored<f64, 27> for Curve {
    ghost put = { with_curve };

    fn put(self, out: &mut [f64; 27]) {
        match self {
            Curve::Arc(a) => put_arc(a, out),
            Curve::Rolled(w) => {
                put_piece(w.piece, out);
                out[26] = w.radius;
            }
        }
    }
}

// An arc has none.
impl Tagged for Curve {
    ghost tags = { curve_tags };

    fn put_tags(self, out: &mut [u32; 2]) {
        match self {
            Curve::Arc(_) => {}
            Curve::Rolled(w) => w.piece.put_tags(out),
        }
    }
}
