// The hypotenuse of libm 0.2.1, by the patterns of the two sides: specs/Hypotenuse.antt has it
// operation by operation.
ghost use Rattle.std.specs.Prelude.{◌≡◌};
ghost use Rattle.libm.specs.Hypot as Hypotenuse;

use checked::of_bits;
use rounding::sqrt;

const SPLIT: f64 = 134217729.0;

// 2^700, and 2^-700.
const UP: f64 = 5.260135901548374e+210;

const DOWN: f64 = 1.90109156629516e-211;

// A square in two parts.
#[derive(Clone, Copy)]
pub struct Square {
    pub hi: f64,
    pub lo: f64,
}

fn sq(x: f64) -> Square
    ensures { result ≡ Hypotenuse.sq x }
{
    let xc = x * SPLIT;
    let xh = x - xc + xc;
    let xl = x - xh;
    let hi = x * x;
    Square {
        hi,
        lo: xh * xh - hi + 2.0 * xh * xl + xl * xl,
    }
}

fn scaled(z: f64, x: f64, y: f64) -> f64
    ensures { result ≡ Hypotenuse.scaled z x y }
{
    let a = sq(x);
    let b = sq(y);
    z * sqrt(b.lo + a.lo + b.hi + a.hi)
}

// The hypotenuse of two numbers by their patterns without the signs, the first not the smaller.
pub fn hypot_ordered(ux: u64, uy: u64) -> f64
    ensures { result ≡ Hypotenuse.hypot_ordered ux uy }
{
    let ex = ux / 0x10_0000_0000_0000;
    let ey = uy / 0x10_0000_0000_0000;
    let x = of_bits(ux);
    let y = of_bits(uy);
    if ey == 0x7ff {
        y
    } else if (ex == 0x7ff) | (uy == 0) {
        x
    } else if ey + 64 < ex {
        x + y
    } else if 1533 < ex {
        scaled(UP, x * DOWN, y * DOWN)
    } else if ey < 573 {
        scaled(DOWN, x * UP, y * UP)
    } else {
        scaled(1.0, x, y)
    }
}

// The greater of two patterns.
pub fn greater(p: u64, q: u64) -> u64
    ensures { result ≡ Hypotenuse.greater p q }
{
    if p < q { q } else { p }
}

// The lesser of two patterns.
pub fn lesser(p: u64, q: u64) -> u64
    ensures { result ≡ Hypotenuse.lesser p q }
{
    if p < q { p } else { q }
}
