// A wave v = a + b·cos(u / n) + c·sin(u / n) at u, and its derivatives in u, on numbers of any size. A call works out what its caller reads, and no
// more: v, the slope, the bend, v with the slope, all three.
ghost use Rattle.std.specs.Prelude.{◌≡◌};
ghost use Rattle.checked.specs.Checked.{answered};
ghost use Rattle.checked.specs.Told.{told};
ghost use Rattle.waves.specs.Values.{v_c, slope_c, bend_c, with_slope_c, derivatives_c};

use crate::Wave;
use checked::{Refusal, finite};
use libm::sincos::sincos;

// v and its first derivative in u.
#[derive(Clone, Copy)]
pub struct WaveSlope {
    pub v: f64,
    pub slope: f64,
}

// v with its first and second derivatives in u.
#[derive(Clone, Copy)]
pub struct Jet {
    pub v: f64,
    pub slope: f64,
    pub bend: f64,
}

pub fn v(w: Wave, u: f64, n: f64) -> Result<f64, Refusal>
    ensures { told result ≡ answered (v_c w.a w.b w.c u n) }
{
    let t = sincos(u / n)?;
    finite(w.a + w.b * t.cos + w.c * t.sin)
}

pub fn slope(w: Wave, u: f64, n: f64) -> Result<f64, Refusal>
    ensures { told result ≡ answered (slope_c w.b w.c u n) }
{
    let t = sincos(u / n)?;
    finite((w.c * t.cos - w.b * t.sin) / n)
}

pub fn bend(w: Wave, u: f64, n: f64) -> Result<f64, Refusal>
    ensures { told result ≡ answered (bend_c w.b w.c u n) }
{
    let t = sincos(u / n)?;
    let s = finite(n * n)?;
    finite(-(w.b * t.cos + w.c * t.sin) / s)
}

pub fn with_slope(w: Wave, u: f64, n: f64) -> Result<WaveSlope, Refusal>
    ensures { told result ≡ answered (with_slope_c w.a w.b w.c u n) }
{
    let t = sincos(u / n)?;
    let v = finite(w.a + w.b * t.cos + w.c * t.sin)?;
    let slope = finite((w.c * t.cos - w.b * t.sin) / n)?;
    Ok(WaveSlope { v, slope })
}

pub fn jet_at(w: Wave, u: f64, n: f64) -> Result<Jet, Refusal>
    ensures { told result ≡ answered (derivatives_c w.a w.b w.c u n) }
{
    let t = sincos(u / n)?;
    let v = finite(w.a + w.b * t.cos + w.c * t.sin)?;
    let slope = finite((w.c * t.cos - w.b * t.sin) / n)?;
    let s = finite(n * n)?;
    let bend = finite(-(w.b * t.cos + w.c * t.sin) / s)?;
    Ok(Jet { v, slope, bend })
}
