// Records as arrays of numbers: arcs, motions, boxes.
ghost use Rattle.std.specs.Prelude.{◌≡◌, ◌≤◌, length};
ghost use Rattle.c_arrays.specs.Records.{over};
ghost use Rattle.c_arrays.specs.ArcRecords.{rigid, arc, bounds, of_arc};

use crate::{put_vec3, vec3_at};
use arcs::Arc;
use boxes::Bounds;
use motions::{Rigid, Rows};

// The arc whose seven numbers an array begins with.
pub fn arc_at(a: &[f64]) -> Arc
    requires { 7 ≤ length a.now }
    ensures { result ≡ arc a.now }
{
    Arc {
        center: vec3_at(a, 0),
        axis: vec3_at(a, 3),
        radius: a[6],
    }
}

pub fn arc_of(a: &[f64; 7]) -> Arc
    ensures { result ≡ arc a.now }
{
    arc_at(a)
}

// The seven numbers of an arc put to the start of an array.
pub fn put_arc(a: Arc, out: &mut [f64])
    requires { 7 ≤ length out.old }
    ensures { out.new ≡ over out.old 0 (of_arc a) }
{
    put_vec3(a.center, out, 0);
    put_vec3(a.axis, out, 3);
    out[6] = a.radius;
}

pub fn rigid_of(a: &[f64; 12]) -> Rigid
    ensures { result ≡ rigid a.now }
{
    Rigid {
        rot: Rows {
            x: vec3_at(a, 0),
            y: vec3_at(a, 3),
            z: vec3_at(a, 6),
        },
        shift: vec3_at(a, 9),
    }
}

pub fn bounds_of(a: &[f64; 6]) -> Bounds
    ensures { result ≡ bounds a.now }
{
    Bounds {
        low: vec3_at(a, 0),
        high: vec3_at(a, 3),
    }
}
