// The 8-point rule of Gauss and Legendre on panels from 0 to 1, whatever is summed at its nodes.
// Numbers may be of any size.
ghost use Rattle.std.specs.Prelude.{◌≡◌, Float};
ghost use Rattle.checked.specs.Told.{told};
ghost use Rattle.checked.specs.Checked.{Checked, answered};
ghost use Rattle.integrals.specs.declared.SurfaceIntegrals.{SurfaceIntegrals};
ghost use Rattle.integrals.specs.Gauss.{panel_at_c, along_c};

use crate::{NODES, SurfaceIntegrals, WEIGHTS};
use checked::{Refusal, finite};

// What is summed at the nodes.
pub trait Summand {
    ghost added_c: { Self → Float → Float → Float → SurfaceIntegrals → Checked SurfaceIntegrals };

    // The sums after the node at t, of weight `wgt`, on a panel of length h.
    fn added(
        &self,
        h: f64,
        wgt: f64,
        t: f64,
        s: SurfaceIntegrals,
    ) -> Result<SurfaceIntegrals, Refusal>
        ensures { told result ≡ answered (added_c self.now h wgt t s) };
}

// The panel i, of length h.
fn panel<S: Summand>(
    of: &S,
    h: f64,
    i: u16,
    s: SurfaceIntegrals,
) -> Result<SurfaceIntegrals, Refusal>
    ensures { told result ≡ answered (panel_at_c (S.added_c of.now) h i s) }
{
    let mid = finite(h * ((i as f64) + 0.5))?;
    let mut a = s;
    for j in 0..4 {
        let off = 0.5 * h * NODES[j];
        let low = finite(mid - off)?;
        let high = finite(mid + off)?;
        let b = of.added(h, WEIGHTS[j], low, a)?;
        a = of.added(h, WEIGHTS[j], high, b)?;
    }
    Ok(a)
}

// All n panels.
pub fn along<S: Summand>(of: &S, n: u16, s: SurfaceIntegrals) -> Result<SurfaceIntegrals, Refusal>
    ensures { told result ≡ answered (along_c (S.added_c of.now) n s) }
{
    let h = finite(1.0 / (n as f64))?;
    let mut a = s;
    for i in 0..n {
        a = panel(of, h, i, a)?;
    }
    Ok(a)
}
