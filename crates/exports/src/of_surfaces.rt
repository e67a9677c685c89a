// The surfaces of faces: planes, cylinders, cones, and walls over a piece.
ghost use Rattle.std.specs.Prelude.{◌≡◌};
ghost use Rattle.surfaces.specs.Entries as Surfaces;
ghost use Rattle.checked.specs.Answers.{number_of};
ghost use Rattle.c_arrays.specs.Records.{vec3, of_vec3, after, tag_due, stored};
ghost use Rattle.c_arrays.specs.ArcRecords.{rigid};
ghost use Rattle.c_arrays.specs.TraceRecords.{some_due};
ghost use Rattle.c_arrays.specs.FaceRecords.{of_cone};
ghost use Rattle.c_shapes.specs.SurfaceRecords.{is_surface, surface, of_plane, with_surface};

use c_arrays::arc_records::rigid_of;
use c_arrays::{UNKNOWN_TAG, vec3_of};
use c_shapes::stored::{store, store_some};
use c_shapes::surface_records::known_surface;

// The plane that the surface s is, its origin and its normal; 255 where it is none.
pub fn jr_surface_plane(
    s: &[f64; 26],
    kind: u32,
    convex: bool,
    arc: u32,
    trace: u32,
    out: &mut [f64; 6],
) -> u32
    ensures number { result ≡ number_of (tag_due (is_surface kind arc trace) (some_due (Surfaces.plane_due (surface s.now kind convex arc trace)))) }
    ensures out { out.new ≡ after of_plane out.old (tag_due (is_surface kind arc trace) (some_due (Surfaces.plane_due (surface s.now kind convex arc trace)))) }
{
    let Some(f) = known_surface(s, kind, convex, arc, trace) else {
        return UNKNOWN_TAG;
    };
    store_some(f.plane(), out)
}

// The cone that the surface s is, a cylinder with slope 0; 255 where it is neither.
pub fn jr_surface_revolution(
    s: &[f64; 26],
    kind: u32,
    convex: bool,
    arc: u32,
    trace: u32,
    out: &mut [f64; 8],
) -> u32
    ensures number { result ≡ number_of (tag_due (is_surface kind arc trace) (some_due (Surfaces.revolution_due (surface s.now kind convex arc trace)))) }
    ensures out { out.new ≡ after of_cone out.old (tag_due (is_surface kind arc trace) (some_due (Surfaces.revolution_due (surface s.now kind convex arc trace)))) }
{
    let Some(f) = known_surface(s, kind, convex, arc, trace) else {
        return UNKNOWN_TAG;
    };
    store_some(f.revolution(), out)
}

// The surface s moved by m, its tags as they were.
pub fn jr_surface_moved(
    s: &[f64; 26],
    kind: u32,
    convex: bool,
    arc: u32,
    trace: u32,
    m: &[f64; 12],
    out: &mut [f64; 26],
) -> u32
    ensures number { result ≡ number_of (tag_due (is_surface kind arc trace) (Surfaces.moved_due (surface s.now kind convex arc trace) (rigid m.now))) }
    ensures out { out.new ≡ stored with_surface out.old (tag_due (is_surface kind arc trace) (Surfaces.moved_due (surface s.now kind convex arc trace) (rigid m.now))) }
{
    let Some(f) = known_surface(s, kind, convex, arc, trace) else {
        return UNKNOWN_TAG;
    };
    store(f.moved(rigid_of(m)), out)
}

// The unit normal of the surface s at its point p, out of the body.
pub fn jr_surface_normal_at(
    s: &[f64; 26],
    kind: u32,
    convex: bool,
    arc: u32,
    trace: u32,
    p: &[f64; 3],
    out: &mut [f64; 3],
) -> u32
    ensures number { result ≡ number_of (tag_due (is_surface kind arc trace) (Surfaces.normal_due (surface s.now kind convex arc trace) (vec3 p.now))) }
    ensures out { out.new ≡ after of_vec3 out.old (tag_due (is_surface kind arc trace) (Surfaces.normal_due (surface s.now kind convex arc trace) (vec3 p.now))) }
{
    let Some(f) = known_surface(s, kind, convex, arc, trace) else {
        return UNKNOWN_TAG;
    };
    store(f.normal_at(vec3_of(p)), out)
}
