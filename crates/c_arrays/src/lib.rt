// Records as arrays of numbers: vectors. Crate c_shapes stores what is answered.
#![tactic(auto, unfolding(crate::specs::Records::over))]

ghost use Rattle.std.specs.Prelude.{◌≡◌, ◌+◌, ◌≤◌, length};
ghost use Rattle.c_arrays.specs.Records.{over, vec2_at, vec3_at, vec2, vec3, of_vec2, of_vec3};

use vectors::{Vec2, Vec3};

pub mod arc_records;
pub mod development_records;
pub mod face_records;
pub mod trace_records;

// The answer to a tag that nobody knows, and the answer where there is no result to give.
pub const UNKNOWN_TAG: u32 = 254;

pub const NONE: u32 = 255;

// ---- the vectors whose numbers stand from place k on
pub fn vec2_at(a: &[f64], k: usize) -> Vec2
    requires { k + 2 ≤ length a.now }
    ensures { result ≡ vec2_at a.now k }
{
    Vec2 {
        x: a[k],
        y: a[k + 1],
    }
}

pub fn vec3_at(a: &[f64], k: usize) -> Vec3
    requires { k + 3 ≤ length a.now }
    ensures { result ≡ vec3_at a.now k }
{
    Vec3 {
        x: a[k],
        y: a[k + 1],
        z: a[k + 2],
    }
}

pub fn vec2_of(a: &[f64; 2]) -> Vec2
    ensures { result ≡ vec2 a.now }
{
    vec2_at(a, 0)
}

pub fn vec3_of(a: &[f64; 3]) -> Vec3
    ensures { result ≡ vec3 a.now }
{
    vec3_at(a, 0)
}

// ---- the same numbers put from place k on
pub fn put_vec2(p: Vec2, out: &mut [f64], k: usize)
    requires { k + 2 ≤ length out.old }
    ensures { out.new ≡ over out.old k (of_vec2 p) }
{
    out[k] = p.x;
    out[k + 1] = p.y;
}

pub fn put_vec3(v: Vec3, out: &mut [f64], k: usize)
    requires { k + 3 ≤ length out.old }
    ensures { out.new ≡ over out.old k (of_vec3 v) }
{
    out[k] = v.x;
    out[k + 1] = v.y;
    out[k + 2] = v.z;
}
