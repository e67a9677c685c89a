// Developments.
ghost use Rattle.std.specs.Prelude.{◌≡◌};
ghost use Rattle.developments.specs.Developments as Developments;
ghost use Rattle.checked.specs.Answers.{number_of};
ghost use Rattle.c_arrays.specs.Records.{vec2, vec3, of_vec3, after};
ghost use Rattle.c_arrays.specs.ArcRecords.{rigid};
ghost use Rattle.c_arrays.specs.DevelopmentRecords.{development, of_development, of_unrolled};

use c_arrays::arc_records::rigid_of;
use c_arrays::development_records::development_of;
use c_arrays::{vec2_of, vec3_of};
use c_shapes::stored::store;

// The unit vector away from the axis of the development at u.
pub fn jr_development_radial(dev: &[f64; 10], u: f64, out: &mut [f64; 3]) -> u32
    ensures number { result ≡ number_of (Developments.radial_due (development dev.now) u) }
    ensures out { out.new ≡ after of_vec3 out.old (Developments.radial_due (development dev.now) u) }
{
    store(development_of(dev).radial(u), out)
}

// The point at p = (u, v) of the development, r away from its axis.
pub fn jr_development_point(dev: &[f64; 10], p: &[f64; 2], r: f64, out: &mut [f64; 3]) -> u32
    ensures number { result ≡ number_of (Developments.point_due (development dev.now) (vec2 p.now) r) }
    ensures out { out.new ≡ after of_vec3 out.old (Developments.point_due (development dev.now) (vec2 p.now) r) }
{
    store(development_of(dev).point(vec2_of(p), r), out)
}

// How the point at p of the development, r away from its axis, moves as p moves by d.
pub fn jr_development_along(
    dev: &[f64; 10],
    p: &[f64; 2],
    d: &[f64; 2],
    r: f64,
    out: &mut [f64; 3],
) -> u32
    ensures number { result ≡ number_of (Developments.along_due (development dev.now) (vec2 p.now) (vec2 d.now) r) }
    ensures out { out.new ≡ after of_vec3 out.old (Developments.along_due (development dev.now) (vec2 p.now) (vec2 d.now) r) }
{
    store(development_of(dev).along(vec2_of(p), vec2_of(d), r), out)
}

// The u and v of the point q in the development, u within half a turn of `near`, and the distance
// of q from its axis.
pub fn jr_development_unroll(dev: &[f64; 10], q: &[f64; 3], near: f64, out: &mut [f64; 3]) -> u32
    ensures number { result ≡ number_of (Developments.unroll_due (development dev.now) (vec3 q.now) near) }
    ensures out { out.new ≡ after of_unrolled out.old (Developments.unroll_due (development dev.now) (vec3 q.now) near) }
{
    store(development_of(dev).unroll(vec3_of(q), near), out)
}

// The development moved by m.
pub fn jr_development_moved(dev: &[f64; 10], m: &[f64; 12], out: &mut [f64; 10]) -> u32
    ensures number { result ≡ number_of (Developments.moved_due (development dev.now) (rigid m.now)) }
    ensures out { out.new ≡ after of_development out.old (Developments.moved_due (development dev.now) (rigid m.now)) }
{
    store(development_of(dev).moved(rigid_of(m)), out)
}
