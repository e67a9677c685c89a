// The least and the greatest of two numbers.
#![tactic(auto)]

ghost use Rattle.std.specs.Prelude.{◌≡◌};
ghost use Rattle.order.specs.Least as Least;

// The lesser of two: -0 of two zeros of unlike sign, a NaN where either is one.
pub fn least(a: f64, b: f64) -> f64
    ensures { result ≡ Least.least a b }
{
    if (a < b) | (b < a) {
        return if a < b { a } else { b };
    }
    if a == b {
        // Only zeros can be equal and unlike.
        return if a == 0.0 { -(-a - b) } else { a };
    }
    a + b
}

// The greater of two: +0 of two zeros of unlike sign, a NaN where either is one.
pub fn greatest(a: f64, b: f64) -> f64
    ensures { result ≡ Least.greatest a b }
{
    if (a < b) | (b < a) {
        return if a < b { b } else { a };
    }
    if a == b {
        return if a == 0.0 { a + b } else { a };
    }
    b + a
}
