// What libm's functions read of a number's bit pattern besides its high word, for every number.
#![tactic(auto)]

ghost use Rattle.std.specs.Prelude.{◌≡◌};
ghost use Rattle.std.specs.Float.Ieee as Ieee;
ghost use Rattle.float_bits.specs.FloatBits as W;

// The pattern without its sign.
pub fn size(x: f64) -> u64
    ensures { result ≡ W.size x }
{
    checked::bits(x) % 0x8000_0000_0000_0000
}

// The exponent's field.
pub fn exponent(x: f64) -> u64
    ensures { result ≡ W.exponent x }
{
    checked::bits(x) / 0x10_0000_0000_0000 % 0x800
}

// 1 below zero and at -0, else 0.
pub fn sign(x: f64) -> u64
    ensures { result ≡ W.sign x }
{
    checked::bits(x) / 0x8000_0000_0000_0000
}

pub fn is_nan(x: f64) -> bool
    ensures { result ≡ Ieee.is_nan x }
{
    x != x
}

pub fn fabs(x: f64) -> f64
    ensures { result ≡ W.fabs x }
{
    if x != x {
        x
    } else {
        f64::from_bits(f64::to_bits(x) % 0x8000_0000_0000_0000)
    }
}

// z, or -z where s is not 0.
pub fn signed(s: u64, z: f64) -> f64
    ensures { result ≡ W.signed s z }
{
    if s == 0 { z } else { -z }
}

// a, b, c or d by the number m. By halves, so that the compiler makes no table of jumps, which a
// processor often guesses wrong.
pub fn choose(m: u64, a: f64, b: f64, c: f64, d: f64) -> f64
    ensures { result ≡ W.choose m a b c d }
{
    if m < 2 {
        if m == 0 { a } else { b }
    } else {
        if m == 2 { c } else { d }
    }
}
