// Records as arrays of numbers: developments.
ghost use Rattle.std.specs.Prelude.{◌≡◌, ◌+◌, ◌≤◌, length};
ghost use Rattle.c_arrays.specs.Records.{over};
ghost use Rattle.c_arrays.specs.DevelopmentRecords.{development_at, development, of_development};

use crate::{put_vec3, vec3_at};
use developments::Development;

// The development whose ten numbers stand from place k on.
pub fn development_at(a: &[f64], k: usize) -> Development
    requires { k + 10 ≤ length a.now }
    ensures { result ≡ development_at a.now k }
{
    Development {
        origin: vec3_at(a, k),
        axis: vec3_at(a, k + 3),
        start: vec3_at(a, k + 6),
        neutral: a[k + 9],
    }
}

pub fn development_of(a: &[f64; 10]) -> Development
    ensures { result ≡ development a.now }
{
    development_at(a, 0)
}

// The ten numbers of a development put to the start of an array.
pub fn put_development(d: Development, out: &mut [f64])
    requires { 10 ≤ length out.old }
    ensures { out.new ≡ over out.old 0 (of_development d) }
{
    put_vec3(d.origin, out, 0);
    put_vec3(d.axis, out, 3);
    put_vec3(d.start, out, 6);
    out[9] = d.neutral;
}
