// Vectors.
ghost use Rattle.std.specs.Prelude.{◌≡◌};
ghost use Rattle.vectors.specs.Entries as Vectors;
ghost use Rattle.checked.specs.Answers.{number_of};
ghost use Rattle.c_arrays.specs.Records.{vec3, alone, of_vec3, after};

use c_arrays::vec3_of;
use c_shapes::stored::store;

// The scalar product of a and b.
pub fn jr_vec3_dot(a: &[f64; 3], b: &[f64; 3], out: &mut [f64; 1]) -> u32
    ensures number { result ≡ number_of (Vectors.dot_due (vec3 a.now) (vec3 b.now)) }
    ensures out { out.new ≡ after alone out.old (Vectors.dot_due (vec3 a.now) (vec3 b.now)) }
{
    store(vec3_of(a).dot(vec3_of(b)), out)
}

// The vector product of a and b.
pub fn jr_vec3_cross(a: &[f64; 3], b: &[f64; 3], out: &mut [f64; 3]) -> u32
    ensures number { result ≡ number_of (Vectors.cross_due (vec3 a.now) (vec3 b.now)) }
    ensures out { out.new ≡ after of_vec3 out.old (Vectors.cross_due (vec3 a.now) (vec3 b.now)) }
{
    store(vec3_of(a).cross(vec3_of(b)), out)
}

// The sum of a and b.
pub fn jr_vec3_sum(a: &[f64; 3], b: &[f64; 3], out: &mut [f64; 3]) -> u32
    ensures number { result ≡ number_of (Vectors.sum_due (vec3 a.now) (vec3 b.now)) }
    ensures out { out.new ≡ after of_vec3 out.old (Vectors.sum_due (vec3 a.now) (vec3 b.now)) }
{
    store(vec3_of(a).sum(vec3_of(b)), out)
}

// The difference a - b.
pub fn jr_vec3_difference(a: &[f64; 3], b: &[f64; 3], out: &mut [f64; 3]) -> u32
    ensures number { result ≡ number_of (Vectors.difference_due (vec3 a.now) (vec3 b.now)) }
    ensures out { out.new ≡ after of_vec3 out.old (Vectors.difference_due (vec3 a.now) (vec3 b.now)) }
{
    store(vec3_of(a).difference(vec3_of(b)), out)
}

// The vector a with the sign of each coordinate turned.
pub fn jr_vec3_negation(a: &[f64; 3], out: &mut [f64; 3]) -> u32
    ensures number { result ≡ number_of (Vectors.negation_due (vec3 a.now)) }
    ensures out { out.new ≡ after of_vec3 out.old (Vectors.negation_due (vec3 a.now)) }
{
    store(vec3_of(a).negation(), out)
}

// The vector a times the number k.
pub fn jr_vec3_times(a: &[f64; 3], k: f64, out: &mut [f64; 3]) -> u32
    ensures number { result ≡ number_of (Vectors.times_due (vec3 a.now) k) }
    ensures out { out.new ≡ after of_vec3 out.old (Vectors.times_due (vec3 a.now) k) }
{
    store(vec3_of(a).times(k), out)
}

// Which coordinate of a is the largest in magnitude, 0, 1 or 2, the first of equal ones.
pub fn jr_vec3_dominant_axis(a: &[f64; 3], out: &mut [u64; 1]) -> u32
    ensures number { result ≡ number_of (Vectors.dominant_axis_due (vec3 a.now)) }
    ensures out { out.new ≡ after alone out.old (Vectors.dominant_axis_due (vec3 a.now)) }
{
    store(vec3_of(a).dominant_axis(), out)
}
