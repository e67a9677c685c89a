// Records as arrays of numbers: cones, frames, sums.
ghost use Rattle.std.specs.Prelude.{◌≡◌, ◌≤◌, length};
ghost use Rattle.c_arrays.specs.Records.{over};
ghost use Rattle.c_arrays.specs.FaceRecords.{cone, frame, sums, of_cone};

use crate::{put_vec3, vec3_at};
use cones::{Cone, Frame};
use integrals::{Integrals, SurfaceIntegrals};

// The cone whose eight numbers an array begins with.
pub fn cone_at(a: &[f64], convex: bool) -> Cone
    requires { 8 ≤ length a.now }
    ensures { result ≡ cone a.now convex }
{
    Cone {
        origin: vec3_at(a, 0),
        axis: vec3_at(a, 3),
        radius: a[6],
        slope: a[7],
        convex,
    }
}

pub fn cone_of(a: &[f64; 8], convex: bool) -> Cone
    ensures { result ≡ cone a.now convex }
{
    cone_at(a, convex)
}

// The eight numbers of a cone put to the start of an array.
pub fn put_cone(c: Cone, out: &mut [f64])
    requires { 8 ≤ length out.old }
    ensures { out.new ≡ over out.old 0 (of_cone c) }
{
    put_vec3(c.origin, out, 0);
    put_vec3(c.axis, out, 3);
    out[6] = c.radius;
    out[7] = c.slope;
}

pub fn frame_of(a: &[f64; 12]) -> Frame
    ensures { result ≡ frame a.now }
{
    Frame {
        axis: vec3_at(a, 0),
        origin: vec3_at(a, 3),
        e1: vec3_at(a, 6),
        e2: vec3_at(a, 9),
    }
}

pub fn sums_of(a: &[f64; 8]) -> Integrals
    ensures { result ≡ sums a.now }
{
    Integrals {
        surface: SurfaceIntegrals {
            six_v: a[0],
            moment: vec3_at(a, 1),
            area: a[4],
            area_vector: vec3_at(a, 5),
        },
    }
}
