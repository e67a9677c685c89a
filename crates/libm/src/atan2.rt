// The angle of a point, atan2 of libm 0.2.1: specs/Arctangent.antt has it operation by operation.
ghost use Rattle.std.specs.Prelude.{◌≡◌, ◌<◌};
ghost use Rattle.libm.specs.Atan2 as Arctangent;

use crate::atan::{atan, atan_size};
use checked::{PI, bits, high_word};
use float_bits::{choose, is_nan, sign, size};

// What π rounded lacks of the true one.
const PI_LO: f64 = 1.2246467991473531772E-16;

fn is_one(x: f64) -> bool
    ensures { result ≡ Arctangent.is_one x }
{
    bits(x) == 0x3ff0_0000_0000_0000
}

fn quarter_turn(m: u64) -> f64
    ensures { result ≡ Arctangent.quarter_turn m }
{
    if m % 2 == 0 { PI / 2.0 } else { -PI / 2.0 }
}

fn at_infinite_x(m: u64, iy: u64) -> f64
    ensures { result ≡ Arctangent.at_infinite_x m iy }
{
    if iy == 0x7ff0_0000 {
        choose(m, PI / 4.0, -PI / 4.0, 3.0 * PI / 4.0, -3.0 * PI / 4.0)
    } else {
        choose(m, 0.0, -0.0, PI, -PI)
    }
}

// The arctangent of |y / x|, or 0 where x is below 0 and y / x below 2^-64 in magnitude.
fn ratio_angle(y: f64, x: f64) -> f64
    ensures { result ≡ Arctangent.ratio_angle y x }
{
    if (sign(x) == 1) & (high_word(y) + 0x400_0000 < high_word(x)) {
        0.0
    } else {
        atan_size(y / x)
    }
}

// A table in place of branches: which quadrant comes next is often guessed wrong.
fn in_quadrant(m: u64, z: f64) -> f64
    requires { m < 4 }
    ensures { result ≡ Arctangent.in_quadrant m z }
{
    let table = [z, -z, PI - (z - PI_LO), (z - PI_LO) - PI];
    let at = m as usize;
    table[at]
}

// The angle of the point (x, y), neither a NaN.
fn angle(y: f64, x: f64) -> f64
    ensures { result ≡ Arctangent.angle y x }
{
    let ix = high_word(x);
    let iy = high_word(y);
    let m = 2 * sign(x) + sign(y);
    if is_one(x) {
        atan(y)
    } else if size(y) == 0 {
        choose(m, y, y, PI, -PI)
    } else if size(x) == 0 {
        quarter_turn(m)
    } else if ix == 0x7ff0_0000 {
        at_infinite_x(m, iy)
    } else if (ix + 0x400_0000 < iy) | (iy == 0x7ff0_0000) {
        quarter_turn(m)
    } else {
        in_quadrant(m, ratio_angle(y, x))
    }
}

// The angle of the point (x, y).
pub fn atan2(y: f64, x: f64) -> f64
    ensures { result ≡ Arctangent.atan2 y x }
{
    if is_nan(x) {
        x + y
    } else if is_nan(y) {
        x + y
    } else {
        angle(y, x)
    }
}
