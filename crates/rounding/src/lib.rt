// IEEE 754's square root, ceiling and rounding to a whole number (halves away from zero), for every
// f64. They refuse nothing: a NaN gives a NaN, and a number below zero has a NaN for its root.
#![tactic(auto)]

ghost use Rattle.std.specs.Prelude.{◌≡◌, ℕ, ◌+◌, ◌-◌, ◌*◌, ◌/◌, ◌%◌, ◌^◌, ◌≤◌, ◌<◌, false, pos, T};
ghost use Rattle.std.specs.Float.{binary64, fin};
ghost use Rattle.std.specs.Float.Ieee.{lt, of_int};
ghost use Rattle.rounding.specs.Whole as Whole;
ghost use Rattle.rounding.specs.Root as Root;
ghost use Rattle.rounding.specs.NearRoot.{NearRoot};

use crate::whole_roots::nearest_root;

pub mod whole_roots;

// A whole number at most a half away from a. From 2^52 to 2^53 the f64 are the whole numbers, so
// the sum is rounded to one of them, and the difference is exact.
fn nearest_whole(a: f64) -> f64
    requires above_zero { T (lt (fin false 0 (pos 0)) a) }
    requires below_wholes { T (lt a (fin false 1 (pos 52))) }
    ensures { (k : ℕ) × (result ≡ of_int binary64 (pos k)) × Whole.Near a k }
{
    a + 4503599627370496.0 - 4503599627370496.0
}

// The least whole number that is not below x. From 2^52 on an f64 has no fraction. Below zero the
// size is cut instead, and the sign is put back last, so that it stays on a zero.
pub fn ceil(x: f64) -> f64
    ensures { result ≡ Whole.ceil binary64 x }
{
    if x > 0.0 {
        if x < 4503599627370496.0 {
            let y = nearest_whole(x);
            if y < x { y + 1.0 } else { y }
        } else {
            x
        }
    } else if x < 0.0 {
        if x > -4503599627370496.0 {
            let y = nearest_whole(-x);
            if -x < y { -(y - 1.0) } else { -y }
        } else {
            x
        }
    } else {
        x
    }
}

// The whole number nearest to a, halves up. The test takes y + 0.5, which is exact, and not a +
// 0.5, which would take the f64 next below a half to 1.
fn nearest_up(a: f64) -> f64
    requires above_zero { T (lt (fin false 0 (pos 0)) a) }
    requires below_wholes { T (lt a (fin false 1 (pos 52))) }
    ensures { result ≡ Whole.round_away binary64 a }
{
    let y = nearest_whole(a);
    if a < y + 0.5 { y } else { y + 1.0 }
}

// The whole number nearest to x, halves away from zero.
pub fn round(x: f64) -> f64
    ensures { result ≡ Whole.round_away binary64 x }
{
    if x > 0.0 {
        if x < 4503599627370496.0 {
            nearest_up(x)
        } else {
            x
        }
    } else if x < 0.0 {
        if x > -4503599627370496.0 {
            -nearest_up(-x)
        } else {
            x
        }
    } else {
        x
    }
}

// The pattern of the root of m * 2^e / 2^1126, for an m from 2^52 up and below 2^53.
fn root_bits(m: u64, e: u64) -> u64
    requires { (2 ^ 52 ≤ m) × (m < 2 ^ 53) × (e < 2098) }
    ensures { (t : ℕ) × NearRoot (m * 2 ^ (52 + e % 2)) t × (result ≡ (e / 2 + 485) * 2 ^ 52 + t) }
{
    let n = if e % 2 == 0 { m } else { 2 * m };
    (e / 2 + 485) * 4503599627370496 + nearest_root(n)
}

// The root of x, rounded to the nearest f64. A zero is its own root, and a number below zero has
// none.
pub fn sqrt(x: f64) -> f64
    ensures { result ≡ Root.sqrt binary64 x }
{
    if x > 0.0 {
        let b: u64 = f64::to_bits(x);
        let field = b >> 52;
        if field == 2047 {
            x
        } else if field == 0 {
            let z = u64::leading_zeros(b);
            f64::from_bits(root_bits(b << (z - 11), 63 - z as u64))
        } else {
            f64::from_bits(root_bits((b & 0xf_ffff_ffff_ffff) | 0x10_0000_0000_0000, field + 51))
        }
    } else if x < 0.0 {
        0.0 / 0.0
    } else {
        x
    }
}
