// The arctangent of libm 0.2.1: specs/Atan.antt has it operation by operation.
ghost use Rattle.std.specs.Prelude.{◌≡◌, not, T};
ghost use Rattle.std.specs.Float.Ieee as Ieee;
ghost use Rattle.float_bits.specs.FloatBits as W;
ghost use Rattle.libm.specs.Atan as Atan;

use checked::high_word;
use float_bits::{is_nan, sign, signed};

const ATANHI0: f64 = 4.63647609000806093515e-01;

const ATANHI1: f64 = 7.85398163397448278999e-01;

const ATANHI2: f64 = 9.82793723247329054082e-01;

const ATANHI3: f64 = 1.57079632679489655800e+00;

const ATANLO0: f64 = 2.26987774529616870924e-17;

const ATANLO1: f64 = 3.06161699786838301793e-17;

const ATANLO2: f64 = 1.39033110312309984516e-17;

const ATANLO3: f64 = 6.12323399573676603587e-17;

const AT0: f64 = 3.33333333333329318027e-01;

const AT1: f64 = -1.99999999998764832476e-01;

const AT2: f64 = 1.42857142725034663711e-01;

const AT3: f64 = -1.11111104054623557880e-01;

const AT4: f64 = 9.09088713343650656196e-02;

const AT5: f64 = -7.69187620504482999495e-02;

const AT6: f64 = 6.66107313738753120669e-02;

const AT7: f64 = -5.83357013379057348645e-02;

const AT8: f64 = 4.97687799461593236017e-02;

const AT9: f64 = -3.65315727442169155270e-02;

const AT10: f64 = 1.62858201153657823623e-02;

// An argument of the series, and the arctangent that it is away from, in two parts.
#[derive(Clone, Copy)]
pub struct Reduced {
    pub x: f64,
    pub high: f64,
    pub low: f64,
}

fn reduction(ix: u64, x: f64) -> Reduced
    ensures { result ≡ Atan.reduced ix x }
{
    if ix < 0x3ff3_0000 {
        if ix < 0x3fe6_0000 {
            Reduced {
                x: (2.0 * x - 1.0) / (2.0 + x),
                high: ATANHI0,
                low: ATANLO0,
            }
        } else {
            Reduced {
                x: (x - 1.0) / (x + 1.0),
                high: ATANHI1,
                low: ATANLO1,
            }
        }
    } else if ix < 0x4003_8000 {
        Reduced {
            x: (x - 1.5) / (1.0 + 1.5 * x),
            high: ATANHI2,
            low: ATANLO2,
        }
    } else {
        Reduced {
            x: -1.0 / x,
            high: ATANHI3,
            low: ATANLO3,
        }
    }
}

fn series(x: f64) -> f64
    ensures { result ≡ Atan.series x }
{
    let z = x * x;
    let w = z * z;
    let s1 = z * (AT0 + w * (AT2 + w * (AT4 + w * (AT6 + w * (AT8 + w * AT10)))));
    let s2 = w * (AT1 + w * (AT3 + w * (AT5 + w * (AT7 + w * AT9))));
    x * (s1 + s2)
}

fn atan_small(ix: u64, x: f64) -> f64
    ensures { result ≡ Atan.atan_small ix x }
{
    if ix < 0x3e40_0000 { x } else { x - series(x) }
}

fn folded(r: Reduced) -> f64
    ensures { result ≡ Atan.folded r }
{
    r.high - (series(r.x) - r.low - r.x)
}

// |x| of a number that is no NaN.
fn fabs_number(x: f64) -> f64
    requires { T (not (Ieee.is_nan x)) }
    ensures { result ≡ W.fabs x }
{
    f64::from_bits(f64::to_bits(x) % 0x8000_0000_0000_0000)
}

// The arctangent of x. A NaN goes first here: then no pattern read below has to be tried for one.
pub fn atan(x: f64) -> f64
    ensures { result ≡ Atan.atan x }
{
    if is_nan(x) {
        x
    } else {
        let ix = high_word(x);
        if ix >= 0x4410_0000 {
            signed(sign(x), ATANHI3 + 2.9011661e-316)
        } else if ix < 0x3fdc_0000 {
            atan_small(ix, x)
        } else {
            signed(sign(x), folded(reduction(ix, fabs_number(x))))
        }
    }
}

// The arctangent of |x|.
pub fn atan_size(x: f64) -> f64
    ensures { result ≡ Atan.atan (W.fabs x) }
{
    if is_nan(x) {
        x
    } else {
        let ix = high_word(x);
        if ix >= 0x4410_0000 {
            ATANHI3 + 2.9011661e-316
        } else if ix < 0x3fdc_0000 {
            atan_small(ix, fabs_number(x))
        } else {
            folded(reduction(ix, fabs_number(x)))
        }
    }
}
