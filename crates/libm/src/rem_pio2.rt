// An angle of at most 1,048,576 in magnitude, less whole quarter turns, as rem_pio2 of libm 0.2.1
// has it: specs/Reduction.antt has it operation by operation.
ghost use Rattle.std.specs.Prelude.{◌≡◌, T, pos, negsuc};
ghost use Rattle.checked.specs.Checked.{within};
ghost use Rattle.libm.specs.RemPio2 as Reduction;

use checked::high_word;
use float_bits::{exponent, sign};

const TO_INT: f64 = 6755399441055744.0;

const INV_PIO2: f64 = 6.36619772367581382433e-01;

const PIO2_1: f64 = 1.57079632673412561417e+00;

const PIO2_1T: f64 = 6.07710050650619224932e-11;

const PIO2_2: f64 = 6.07710050630396597660e-11;

const PIO2_2T: f64 = 2.02226624879595063154e-21;

const PIO2_3: f64 = 2.02226624871116645580e-21;

const PIO2_3T: f64 = 8.47842766036889956997e-32;

// An angle at which a sine is worked out.
#[derive(Clone, Copy)]
pub struct Angle {
    pub x: f64,
    ghost within: { T (within x) },
}

// What is left of an angle after whole quarter turns, in two parts, and the two lowest bits of
// their number.
#[derive(Clone, Copy)]
pub struct Rest {
    pub quarter: u64,
    pub y0: f64,
    pub y1: f64,
}

fn parted(quarter: u64, r: f64, w: f64) -> Rest
    ensures { result ≡ Reduction.parted quarter r w }
{
    let y0 = r - w;
    Rest {
        quarter,
        y0,
        y1: (r - y0) - w,
    }
}

fn third_round(quarter: u64, f_n: f64, t: f64) -> Rest
    ensures { result ≡ Reduction.third_round quarter f_n t }
{
    let w = f_n * PIO2_3;
    let r = t - w;
    parted(quarter, r, f_n * PIO2_3T - ((t - r) - w))
}

fn second_round(ex: u64, quarter: u64, f_n: f64, t: f64) -> Rest
    ensures { result ≡ Reduction.second_round ex quarter f_n t }
{
    let v = f_n * PIO2_2;
    let r = t - v;
    let w = f_n * PIO2_2T - ((t - r) - v);
    if exponent(r - w) + 49 < ex {
        third_round(quarter, f_n, r)
    } else {
        parted(quarter, r, w)
    }
}

// tmp is whole, and 1.5 times 2^52 more than the number of quarter turns: its pattern ends as that
// number does.
fn medium(a: Angle, ix: u64) -> Rest
    ensures { result ≡ Reduction.medium a.x ix }
{
    let tmp = a.x * INV_PIO2 + TO_INT;
    let f_n = tmp - TO_INT;
    let quarter = f64::to_bits(tmp) % 4;
    let ex = ix / 0x10_0000;
    let r = a.x - f_n * PIO2_1;
    let w = f_n * PIO2_1T;
    if exponent(r - w) + 16 < ex {
        second_round(ex, quarter, f_n, r)
    } else {
        parted(quarter, r, w)
    }
}

fn taken_off(quarter: u64, x: f64, p: f64, t: f64) -> Rest
    ensures { result ≡ Reduction.taken_off quarter x p t }
{
    let z = x - p;
    let y0 = z - t;
    Rest {
        quarter,
        y0,
        y1: (z - y0) - t,
    }
}

fn added(quarter: u64, x: f64, p: f64, t: f64) -> Rest
    ensures { result ≡ Reduction.added quarter x p t }
{
    let z = x + p;
    let y0 = z + t;
    Rest {
        quarter,
        y0,
        y1: (z - y0) + t,
    }
}

fn to_five(a: Angle, ix: u64) -> Rest
    ensures { result ≡ Reduction.to_five a.x ix }
{
    if ix % 0x10_0000 == 0x9_21fb {
        medium(a, ix)
    } else if ix <= 0x4002_d97c {
        if sign(a.x) == 0 {
            taken_off(1, a.x, PIO2_1, PIO2_1T)
        } else {
            added(3, a.x, PIO2_1, PIO2_1T)
        }
    } else {
        if sign(a.x) == 0 {
            taken_off(2, a.x, 2.0 * PIO2_1, 2.0 * PIO2_1T)
        } else {
            added(2, a.x, 2.0 * PIO2_1, 2.0 * PIO2_1T)
        }
    }
}

fn to_nine(a: Angle, ix: u64) -> Rest
    ensures { result ≡ Reduction.to_nine a.x ix }
{
    if ix <= 0x4015_fdbc {
        if ix == 0x4012_d97c {
            medium(a, ix)
        } else if sign(a.x) == 0 {
            taken_off(3, a.x, 3.0 * PIO2_1, 3.0 * PIO2_1T)
        } else {
            added(1, a.x, 3.0 * PIO2_1, 3.0 * PIO2_1T)
        }
    } else {
        if ix == 0x4019_21fb {
            medium(a, ix)
        } else if sign(a.x) == 0 {
            taken_off(0, a.x, 4.0 * PIO2_1, 4.0 * PIO2_1T)
        } else {
            added(0, a.x, 4.0 * PIO2_1, 4.0 * PIO2_1T)
        }
    }
}

// What is left of x, which is above π/4 in magnitude.
pub fn rem_pio2(a: Angle) -> Rest
    ensures { result ≡ Reduction.rem_pio2 a.x }
{
    let ix = high_word(a.x);
    if ix <= 0x400f_6a7a {
        to_five(a, ix)
    } else if ix <= 0x401c_463b {
        to_nine(a, ix)
    } else {
        medium(a, ix)
    }
}
