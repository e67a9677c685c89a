// Motions.
ghost use Rattle.std.specs.Prelude.{◌≡◌};
ghost use Rattle.motions.specs.Motions as Motions;
ghost use Rattle.checked.specs.Answers.{number_of};
ghost use Rattle.c_arrays.specs.Records.{vec3, of_vec3, after};
ghost use Rattle.c_arrays.specs.ArcRecords.{rigid, of_rigid};

use c_arrays::arc_records::rigid_of;
use c_arrays::vec3_of;
use c_shapes::stored::store;
use motions::Rigid;

// The rotation by the angle about an axis of any length through the origin.
pub fn jr_rigid_rotation(axis: &[f64; 3], angle: f64, out: &mut [f64; 12]) -> u32
    ensures number { result ≡ number_of (Motions.rotation_due (vec3 axis.now) angle) }
    ensures out { out.new ≡ after of_rigid out.old (Motions.rotation_due (vec3 axis.now) angle) }
{
    store(Rigid::rotation(vec3_of(axis), angle), out)
}

// The motion from the coordinates of a frame, its axes x, y and z at `origin`, to those of the
// world.
pub fn jr_rigid_frame(
    origin: &[f64; 3],
    x: &[f64; 3],
    y: &[f64; 3],
    z: &[f64; 3],
    out: &mut [f64; 12],
) -> u32
    ensures number { result ≡ number_of (Motions.frame_due (vec3 origin.now) (vec3 x.now) (vec3 y.now) (vec3 z.now)) }
    ensures out { out.new ≡ after of_rigid out.old (Motions.frame_due (vec3 origin.now) (vec3 x.now) (vec3 y.now) (vec3 z.now)) }
{
    store(
        Rigid::frame(vec3_of(origin), vec3_of(x), vec3_of(y), vec3_of(z)),
        out,
    )
}

// The point p moved by m.
pub fn jr_rigid_apply(m: &[f64; 12], p: &[f64; 3], out: &mut [f64; 3]) -> u32
    ensures number { result ≡ number_of (Motions.apply_due (rigid m.now) (vec3 p.now)) }
    ensures out { out.new ≡ after of_vec3 out.old (Motions.apply_due (rigid m.now) (vec3 p.now)) }
{
    store(rigid_of(m).apply(vec3_of(p)), out)
}

// The direction p turned by m, whose shift is left out.
pub fn jr_rigid_apply_vector(m: &[f64; 12], p: &[f64; 3], out: &mut [f64; 3]) -> u32
    ensures number { result ≡ number_of (Motions.apply_vector_due (rigid m.now) (vec3 p.now)) }
    ensures out { out.new ≡ after of_vec3 out.old (Motions.apply_vector_due (rigid m.now) (vec3 p.now)) }
{
    store(rigid_of(m).apply_vector(vec3_of(p)), out)
}
