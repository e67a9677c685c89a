// Arccosine and hypotenuse of libm 0.2.1: specs/Roots.antt has them operation by operation.
ghost use Rattle.std.specs.Prelude.{◌≡◌};
ghost use Rattle.libm.specs.Roots as Roots;

use crate::acos::{acos_above, acos_below, acos_far, acos_near};
use crate::hypot::{greater, hypot_ordered, lesser};
use checked::high_word;
use float_bits::{is_nan, sign, size};

// The angle whose cosine is x; a NaN where there is none. A NaN goes first here: then no pattern
// read below has to be tried for one.
pub fn acos(x: f64) -> f64
    ensures { result ≡ Roots.acos x }
{
    if is_nan(x) {
        acos_far(x)
    } else {
        let ix = high_word(x);
        if ix >= 0x3ff0_0000 {
            acos_far(x)
        } else if ix < 0x3fe0_0000 {
            acos_near(ix, x)
        } else if sign(x) == 0 {
            acos_above(x)
        } else {
            acos_below(x)
        }
    }
}

// The hypotenuse of the sides x and y.
pub fn hypot(x: f64, y: f64) -> f64
    ensures { result ≡ Roots.hypot x y }
{
    let p = size(x);
    let q = size(y);
    hypot_ordered(greater(p, q), lesser(p, q))
}
