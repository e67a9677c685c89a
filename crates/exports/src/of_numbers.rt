// Square root, rounding to whole numbers, and the functions of libm.
ghost use Rattle.std.specs.Prelude.{◌≡◌};
ghost use Rattle.std.specs.Float.{binary64};
ghost use Rattle.checked.specs.Checked.{answered};
ghost use Rattle.rounding.specs.Root as Root;
ghost use Rattle.rounding.specs.Whole as Whole;
ghost use Rattle.libm.specs.Atan2 as Arctangent;
ghost use Rattle.libm.specs.Sincos as Circle;
ghost use Rattle.libm.specs.Roots as Roots;
ghost use Rattle.checked.specs.Answers.{number_of};
ghost use Rattle.c_arrays.specs.Records.{alone, of_sines, after};

use c_shapes::stored::store;
use libm::{atan2, roots, sincos};

// The square root of x, rounded once; a NaN where x is below 0.
pub fn jr_sqrt(x: f64) -> f64
    ensures { result ≡ Root.sqrt binary64 x }
{
    rounding::sqrt(x)
}

// The least whole number that is not below x.
pub fn jr_ceil(x: f64) -> f64
    ensures { result ≡ Whole.ceil binary64 x }
{
    rounding::ceil(x)
}

// The whole number nearest to x, halves away from 0.
pub fn jr_round(x: f64) -> f64
    ensures { result ≡ Whole.round_away binary64 x }
{
    rounding::round(x)
}

// The angle of the point (x, y) in radians, -pi to pi, by libm's atan2 of y and x.
pub fn jr_atan2(y: f64, x: f64) -> f64
    ensures { result ≡ Arctangent.atan2 y x }
{
    atan2::atan2(y, x)
}

// The angle whose cosine is x, 0 to pi, by libm's acos; a NaN where x is not in -1 to 1.
pub fn jr_acos(x: f64) -> f64
    ensures { result ≡ Roots.acos x }
{
    roots::acos(x)
}

// The length of (x, y), by libm's hypot.
pub fn jr_hypot(x: f64, y: f64) -> f64
    ensures { result ≡ Roots.hypot x y }
{
    roots::hypot(x, y)
}

// The sine of the angle x.
pub fn jr_sin(x: f64, out: &mut [f64; 1]) -> u32
    ensures number { result ≡ number_of (answered (Circle.sin_c x)) }
    ensures out { out.new ≡ after alone out.old (answered (Circle.sin_c x)) }
{
    store(sincos::sin(x), out)
}

// The sine and the cosine of the angle x.
pub fn jr_sincos(x: f64, out: &mut [f64; 2]) -> u32
    ensures number { result ≡ number_of (answered (Circle.sincos_c x)) }
    ensures out { out.new ≡ after of_sines out.old (answered (Circle.sincos_c x)) }
{
    store(sincos::sincos(x), out)
}
