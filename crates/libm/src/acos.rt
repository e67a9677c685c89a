// The arccosine of libm 0.2.1 by the size of its argument: specs/Arccosine.antt has each case
// operation by operation.
ghost use Rattle.std.specs.Prelude.{◌≡◌};
ghost use Rattle.libm.specs.Acos as Arccosine;

use checked::upper;
use float_bits::{sign, size};
use rounding::sqrt;

const PIO2_HI: f64 = 1.57079632679489655800e+00;

const PIO2_LO: f64 = 6.12323399573676603587e-17;

const TINY: f64 = 7.52316384526264e-37;

const PS0: f64 = 1.66666666666666657415e-01;

const PS1: f64 = -3.25565818622400915405e-01;

const PS2: f64 = 2.01212532134862925881e-01;

const PS3: f64 = -4.00555345006794114027e-02;

const PS4: f64 = 7.91534994289814532176e-04;

const PS5: f64 = 3.47933107596021167570e-05;

const QS1: f64 = -2.40339491173441421878e+00;

const QS2: f64 = 2.02094576023350569471e+00;

const QS3: f64 = -6.88283971605453293030e-01;

const QS4: f64 = 7.70381505559019352791e-02;

fn ratio(z: f64) -> f64
    ensures { result ≡ Arccosine.ratio z }
{
    let p = z * (PS0 + z * (PS1 + z * (PS2 + z * (PS3 + z * (PS4 + z * PS5)))));
    let q = 1.0 + z * (QS1 + z * (QS2 + z * (QS3 + z * QS4)));
    p / q
}

// 1 or more in magnitude, or a NaN: beyond 1 a NaN.
pub fn acos_far(x: f64) -> f64
    ensures { result ≡ Arccosine.acos_far x }
{
    if size(x) == 0x3ff0_0000_0000_0000 {
        if sign(x) == 0 {
            0.0
        } else {
            2.0 * PIO2_HI + TINY
        }
    } else {
        0.0 / (x - x)
    }
}

// Below 1/2 in magnitude.
pub fn acos_near(ix: u64, x: f64) -> f64
    ensures { result ≡ Arccosine.acos_near ix x }
{
    if ix <= 0x3c60_0000 {
        PIO2_HI + TINY
    } else {
        PIO2_HI - (x - (PIO2_LO - x * ratio(x * x)))
    }
}

// From -1 to -1/2.
pub fn acos_below(x: f64) -> f64
    ensures { result ≡ Arccosine.acos_below x }
{
    let z = (1.0 + x) * 0.5;
    let s = sqrt(z);
    let w = ratio(z) * s - PIO2_LO;
    2.0 * (PIO2_HI - (s + w))
}

// From 1/2 to 1.
pub fn acos_above(x: f64) -> f64
    ensures { result ≡ Arccosine.acos_above x }
{
    let z = (1.0 - x) * 0.5;
    let s = sqrt(z);
    let df = upper(s);
    let c = (z - df * df) / (s + df);
    let w = ratio(z) * s + c;
    2.0 * (df + w)
}
