// Frames of cones.
ghost use Rattle.std.specs.Prelude.{◌≡◌, true};
ghost use Rattle.cones.specs.Entries as Frames;
ghost use Rattle.checked.specs.Answers.{number_of};
ghost use Rattle.c_arrays.specs.Records.{vec3, alone, of_vec3, after};
ghost use Rattle.c_arrays.specs.FaceRecords.{cone, frame, of_frame};

use c_arrays::face_records::{cone_of, frame_of};
use c_arrays::vec3_of;
use c_shapes::stored::store;

// The frame of the cone c, the same whichever side the body is on.
pub fn jr_cone_frame(c: &[f64; 8], out: &mut [f64; 12]) -> u32
    ensures number { result ≡ number_of (Frames.frame_due (cone c.now true)) }
    ensures out { out.new ≡ after of_frame out.old (Frames.frame_due (cone c.now true)) }
{
    store(cone_of(c, true).own_frame(), out)
}

// The angle of the point p about the axis of the frame f, -pi to pi.
pub fn jr_frame_angle(f: &[f64; 12], p: &[f64; 3], out: &mut [f64; 1]) -> u32
    ensures number { result ≡ number_of (Frames.angle_due (frame f.now) (vec3 p.now)) }
    ensures out { out.new ≡ after alone out.old (Frames.angle_due (frame f.now) (vec3 p.now)) }
{
    store(frame_of(f).angle(vec3_of(p)), out)
}

// The point at the angle theta about the axis of the frame f, z along it and r away from it.
pub fn jr_frame_point(f: &[f64; 12], theta: f64, z: f64, r: f64, out: &mut [f64; 3]) -> u32
    ensures number { result ≡ number_of (Frames.point_due (frame f.now) theta z r) }
    ensures out { out.new ≡ after of_vec3 out.old (Frames.point_due (frame f.now) theta z r) }
{
    store(frame_of(f).point(theta, z, r), out)
}
