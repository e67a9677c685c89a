// The surfaces of faces: planes, cylinders, cones, and walls over a piece.
ghost use Rattle.std.specs.Prelude.{◌≡◌};
ghost use Rattle.surfaces.specs.Entries as Surfaces;
ghost use Rattle.checked.specs.Answers.{number_of};
ghost use Rattle.c_arrays.specs.Records.{vec3, of_vec3, after, tag_due, stored};
ghost use Rattle.c_arrays.specs.ArcRecords.{rigid};
ghost use Rattle.c_arrays.specs.TraceRecords.{some_due};
ghost use Rattle.c_arrays.specs.FaceRecords.{of_cone};
ghost use Rattle.c_shapes.specs.SurfaceRecords.{is_surface, surface, of_plane, with_surface};

// The plane that the surface s is, its origin and its normal; 255 where it is none.
#[unsafe(no_mangle)]
pub extern "C" fn jr_surface_plane(
    s: &[f64; 26],
    kind: u32,
    convex: bool,
    arc: u32,
    trace: u32,
    out: &mut [f64; 6],
) -> u32
    ensures number { result ≡ number_of (tag_due (is_surface kind arc trace) (some_due (Surfaces.plane_due (surface s.now kind convex arc trace)))) }
    ensures out { out.new ≡ after of_plane out.old (tag_due (is_surface kind arc trace) (some_due (Surfaces.plane_due (surface s.now kind convex arc trace)))) }
{
    exports::of_surfaces::jr_surface_plane(s, kind, convex, arc, trace, out)
}

// The cone that the surface s is, a cylinder with slope 0; 255 where it is neither.
#[unsafe(no_mangle)]
pub extern "C" fn jr_surface_revolution(
    s: &[f64; 26],
    kind: u32,
    convex: bool,
    arc: u32,
    trace: u32,
    out: &mut [f64; 8],
) -> u32
    ensures number { result ≡ number_of (tag_due (is_surface kind arc trace) (some_due (Surfaces.revolution_due (surface s.now kind convex arc trace)))) }
    ensures out { out.new ≡ after of_cone out.old (tag_due (is_surface kind arc trace) (some_due (Surfaces.revolution_due (surface s.now kind convex arc trace)))) }
{
    exports::of_surfaces::jr_surface_revolution(s, kind, convex, arc, trace, out)
}

// The surface s moved by m, its tags as they were.
#[unsafe(no_mangle)]
pub extern "C" fn jr_surface_moved(
    s: &[f64; 26],
    kind: u32,
    convex: bool,
    arc: u32,
    trace: u32,
    m: &[f64; 12],
    out: &mut [f64; 26],
) -> u32
    ensures number { result ≡ number_of (tag_due (is_surface kind arc trace) (Surfaces.moved_due (surface s.now kind convex arc trace) (rigid m.now))) }
    ensures out { out.new ≡ stored with_surface out.old (tag_due (is_surface kind arc trace) (Surfaces.moved_due (surface s.now kind convex arc trace) (rigid m.now))) }
{
    exports::of_surfaces::jr_surface_moved(s, kind, convex, arc, trace, m, out)
}

// The unit normal of the surface s at its point p, out of the body.
#[unsafe(no_mangle)]
pub extern "C" fn jr_surface_normal_at(
    s: &[f64; 26],
    kind: u32,
    convex: bool,
    arc: u32,
    trace: u32,
    p: &[f64; 3],
    out: &mut [f64; 3],
) -> u32
    ensures number { result ≡ number_of (tag_due (is_surface kind arc trace) (Surfaces.normal_due (surface s.now kind convex arc trace) (vec3 p.now))) }
    ensures out { out.new ≡ after of_vec3 out.old (tag_due (is_surface kind arc trace) (Surfaces.normal_due (surface s.now kind convex arc trace) (vec3 p.now))) }
{
    exports::of_surfaces::jr_surface_normal_at(s, kind, convex, arc, trace, p, out)
}
