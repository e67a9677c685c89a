// Pieces of a development as arrays of numbers, and what is answered of them.
#![tactic(auto, unfolding(c_arrays::specs::Records::over, c_arrays::specs::Records::known))]

ghost use Rattle.std.specs.Prelude.{◌≡◌};
ghost use Rattle.c_arrays.specs.Records.{known, written};
ghost use Rattle.piece_arrays.specs.Arrays.{is_piece, piece, tags_of, with_piece};
ghost use Rattle.c_shapes.specs.PieceRecords.{of_place, of_measure, of_box};

use crate::stored::{Stored, Tagged};
use c_arrays::put_vec2;
use piece_arrays::{arc_tag, is_piece, piece_of, put_piece, trace_tag};
use piece_boxes::brackets::FlatBox;
use piece_curves::meet_curves::Place;
use piece_lengths::measures::Measure;
use pieces::Rolled;

// A piece where its tags are known: of its arc and of its trace.
#[inline(always)]
pub fn known_piece(a: &[f64; 26], arc: u32, trace: u32) -> Option<Rolled>
    ensures { result ≡ known (is_piece arc trace) (piece a.now arc trace) }
{
    if is_piece(arc, trace) {
        Some(piece_of(a, arc, trace))
    } else {
        None
    }
}

impl Stored<f64, 26> for Rolled {
    ghost put = { with_piece };

    fn put(self, out: &mut [f64; 26]) {
        put_piece(self, out);
    }
}

impl Tagged for Rolled {
    ghost tags = { tags_of };

    fn put_tags(self, out: &mut [u32; 2]) {
        out[0] = arc_tag(self.arc);
        out[1] = trace_tag(self.trace);
    }
}

// The point and its derivative.
impl Stored<f64, 4> for Place {
    ghost put = { written of_place };

    fn put(self, out: &mut [f64; 4]) {
        put_vec2(self.p, out, 0);
        put_vec2(self.d, out, 2);
    }
}

// The radius, the angle turned, the length.
impl Stored<f64, 3> for Measure {
    ghost put = { written of_measure };

    fn put(self, out: &mut [f64; 3]) {
        out[0] = self.radius;
        out[1] = self.turn;
        out[2] = self.length;
    }
}

// The least and the greatest u, the least and the greatest v.
impl Stored<f64, 4> for FlatBox {
    ghost put = { written of_box };

    fn put(self, out: &mut [f64; 4]) {
        out[0] = self.low.x;
        out[1] = self.high.x;
        out[2] = self.low.y;
        out[3] = self.high.y;
    }
}
