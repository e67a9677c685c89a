// Angles turned about a centre, for numbers of any size. A turn that is not finite is for the
// caller to try.
#![tactic(auto, unfolding(crate::specs::Angles::ahead_c, crate::specs::Angles::back_c))]

ghost use Rattle.std.specs.Prelude.{◌≡◌};
ghost use Rattle.checked.specs.Checked.{answered};
ghost use Rattle.checked.specs.Told.{told};
ghost use Rattle.profile_arcs.specs.Angles.{angle_c, ahead_c, back_c};

use checked::{Refusal, TAU, finite};
use libm::atan2::atan2;

// The angle of the direction (x, y), in [-π, π]. The two numbers are tried, and so is what they
// give.
pub fn angle(y: f64, x: f64) -> Result<f64, Refusal>
    ensures { told result ≡ answered (angle_c y x) }
{
    finite(y)?;
    finite(x)?;
    finite(atan2(y, x))
}

// A turn counterclockwise, in (0, 2π].
pub fn ahead(t: f64) -> f64
    ensures { result ≡ (ahead_c t).value }
{
    if t <= 0.0 { t + TAU } else { t }
}

// A turn clockwise, in [-2π, 0).
pub fn back(t: f64) -> f64
    ensures { result ≡ (back_c t).value }
{
    if t >= 0.0 { t - TAU } else { t }
}
