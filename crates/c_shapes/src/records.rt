// The records that are stored number by number, in the order of their fields.
#![tactic(auto, unfolding(c_arrays::specs::Records::over))]

ghost use Rattle.c_arrays.specs.Records.{alone, of_sines, of_vec2, of_vec3, written};
ghost use Rattle.c_arrays.specs.ArcRecords.{of_arc, of_bounds, of_rigid};
ghost use Rattle.c_arrays.specs.DevelopmentRecords.{of_development, of_unrolled};
ghost use Rattle.c_arrays.specs.FaceRecords.{of_cone, of_frame, of_sums};
ghost use Rattle.c_arrays.specs.TraceRecords.{of_jet, of_points, of_span};

use crate::stored::Stored;
use arcs::Arc;
use boxes::Bounds;
use c_arrays::arc_records::put_arc;
use c_arrays::development_records::put_development;
use c_arrays::face_records::put_cone;
use c_arrays::{put_vec2, put_vec3};
use cones::{Cone, Frame};
use developments::Development;
use developments::formulas::Unrolled;
use integrals::Integrals;
use libm::sincos::Sines;
use motions::Rigid;
use vectors::{Vec2, Vec3};
use waves::turning_points::Span;

// ---- numbers and counts
impl Stored<f64, 1> for f64 {
    ghost put = { written alone };

    fn put(self, out: &mut [f64; 1]) {
        out[0] = self;
    }
}

impl Stored<u64, 1> for usize {
    ghost put = { written alone };

    fn put(self, out: &mut [u64; 1]) {
        out[0] = self as u64;
    }
}

impl Stored<u64, 1> for u16 {
    ghost put = { written alone };

    fn put(self, out: &mut [u64; 1]) {
        out[0] = self as u64;
    }
}

impl Stored<f64, 2> for Sines {
    ghost put = { written of_sines };

    fn put(self, out: &mut [f64; 2]) {
        out[0] = self.sin;
        out[1] = self.cos;
    }
}

// ---- vectors, arcs, motions and boxes
impl Stored<f64, 2> for Vec2 {
    ghost put = { written of_vec2 };

    fn put(self, out: &mut [f64; 2]) {
        put_vec2(self, out, 0);
    }
}

impl Stored<f64, 3> for Vec3 {
    ghost put = { written of_vec3 };

    fn put(self, out: &mut [f64; 3]) {
        put_vec3(self, out, 0);
    }
}

impl Stored<f64, 7> for Arc {
    ghost put = { written of_arc };

    fn put(self, out: &mut [f64; 7]) {
        put_arc(self, out);
    }
}

impl Stored<f64, 12> for Rigid {
    ghost put = { written of_rigid };

    fn put(self, out: &mut [f64; 12]) {
        put_vec3(self.rot.x, out, 0);
        put_vec3(self.rot.y, out, 3);
        put_vec3(self.rot.z, out, 6);
        put_vec3(self.shift, out, 9);
    }
}

impl Stored<f64, 6> for Bounds {
    ghost put = { written of_bounds };

    fn put(self, out: &mut [f64; 6]) {
        put_vec3(self.low, out, 0);
        put_vec3(self.high, out, 3);
    }
}

// ---- developments, and waves and meets on them
impl Stored<f64, 10> for Development {
    ghost put = { written of_development };

    fn put(self, out: &mut [f64; 10]) {
        put_development(self, out);
    }
}

// u, v, the distance from the axis.
impl Stored<f64, 3> for Unrolled {
    ghost put = { written of_unrolled };

    fn put(self, out: &mut [f64; 3]) {
        put_vec2(self.p, out, 0);
        out[2] = self.r;
    }
}

// v and its two derivatives.
impl Stored<f64, 3> for waves::values::Jet {
    ghost put = { written of_jet };

    fn put(self, out: &mut [f64; 3]) {
        out[0] = self.v;
        out[1] = self.slope;
        out[2] = self.bend;
    }
}

// The least and the greatest v.
impl Stored<f64, 2> for Span {
    ghost put = { written of_span };

    fn put(self, out: &mut [f64; 2]) {
        out[0] = self.low;
        out[1] = self.high;
    }
}

// The point and its two derivatives.
impl Stored<f64, 9> for meets::generatrix::Jet {
    ghost put = { written of_points };

    fn put(self, out: &mut [f64; 9]) {
        put_vec3(self.q, out, 0);
        put_vec3(self.q1, out, 3);
        put_vec3(self.q2, out, 6);
    }
}

// ---- cones, frames and sums
// Which side the body is on is as it was handed in.
impl Stored<f64, 8> for Cone {
    ghost put = { written of_cone };

    fn put(self, out: &mut [f64; 8]) {
        put_cone(self, out);
    }
}

impl Stored<f64, 12> for Frame {
    ghost put = { written of_frame };

    fn put(self, out: &mut [f64; 12]) {
        put_vec3(self.axis, out, 0);
        put_vec3(self.origin, out, 3);
        put_vec3(self.e1, out, 6);
        put_vec3(self.e2, out, 9);
    }
}

impl Stored<f64, 8> for Integrals {
    ghost put = { written of_sums };

    fn put(self, out: &mut [f64; 8]) {
        out[0] = self.surface.six_v;
        put_vec3(self.surface.moment, out, 1);
        out[4] = self.surface.area;
        put_vec3(self.surface.area_vector, out, 5);
    }
}
