// Surfaces as arrays of numbers.
#![tactic(auto, unfolding(c_arrays::specs::Records::over, c_arrays::specs::Records::known, crate::specs::SurfaceRecords::is_surface, crate::specs::SurfaceRecords::with_surface))]

ghost use Rattle.std.specs.Prelude.{◌≡◌, ◌≤◌, length};
ghost use Rattle.c_arrays.specs.Records.{known, over, written};
ghost use Rattle.c_shapes.specs.SurfaceRecords.{is_surface, plane, cylinder, surface, of_plane, of_cylinder, with_surface};

use crate::stored::Stored;
use c_arrays::face_records::{cone_at, put_cone};
use c_arrays::{put_vec3, vec3_at};
use piece_arrays::{is_piece, piece_of, put_piece};
use surfaces::{Cylinder, Plane, Surface};

fn plane_of(a: &[f64; 26]) -> Plane
    ensures { result ≡ plane a.now }
{
    Plane {
        origin: vec3_at(a, 0),
        normal: vec3_at(a, 3),
    }
}

fn cylinder_of(a: &[f64; 26], convex: bool) -> Cylinder
    ensures { result ≡ cylinder a.now convex }
{
    Cylinder {
        origin: vec3_at(a, 0),
        axis: vec3_at(a, 3),
        radius: a[6],
        convex,
    }
}

fn put_plane(p: Plane, out: &mut [f64])
    requires { 6 ≤ length out.old }
    ensures { out.new ≡ over out.old 0 (of_plane p) }
{
    put_vec3(p.origin, out, 0);
    put_vec3(p.normal, out, 3);
}

fn put_cylinder(c: Cylinder, out: &mut [f64])
    requires { 7 ≤ length out.old }
    ensures { out.new ≡ over out.old 0 (of_cylinder c) }
{
    put_vec3(c.origin, out, 0);
    put_vec3(c.axis, out, 3);
    out[6] = c.radius;
}

// The surface of an array: 0 a plane, 1 a cylinder, 2 a cone, whose other tags are not read, else a wall.
#[inline(always)]
pub fn surface_of(a: &[f64; 26], kind: u32, convex: bool, arc: u32, trace: u32) -> Surface
    ensures { result ≡ surface a.now kind convex arc trace }
{
    match kind {
        0 => Surface::Plane(plane_of(a)),
        1 => Surface::Cylinder(cylinder_of(a, convex)),
        2 => Surface::Cone(cone_at(a, convex)),
        _ => Surface::Wall(piece_of(a, arc, trace)),
    }
}

// The same where the tags are known: 3 is a wall.
#[inline(always)]
pub fn known_surface(
    a: &[f64; 26],
    kind: u32,
    convex: bool,
    arc: u32,
    trace: u32,
) -> Option<Surface>
    ensures { result ≡ known (is_surface kind arc trace) (surface a.now kind convex arc trace) }
{
    match kind {
        0..=2 => Some(surface_of(a, kind, convex, arc, trace)),
        3 if is_piece(arc, trace) => Some(surface_of(a, kind, convex, arc, trace)),
        _ => None,
    }
}

impl Stored<f64, 26> for Surface {
    ghost put = { with_surface };

    fn put(self, out: &mut [f64; 26]) {
        match self {
            Surface::Plane(p) => put_plane(p, out),
            Surface::Cylinder(c) => put_cylinder(c, out),
            Surface::Cone(c) => put_cone(c, out),
            Surface::Wall(w) => put_piece(w, out),
        }
    }
}

impl Stored<f64, 6> for Plane {
    ghost put = { written of_plane };

    fn put(self, out: &mut [f64; 6]) {
        put_plane(self, out);
    }
}
