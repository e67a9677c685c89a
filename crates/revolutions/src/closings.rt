// Closing a face: the running sums of its paths go to the sums of the body. The running sums go by
// value, those of the body by value too, or lent.
ghost use Rattle.std.specs.Prelude.{◌≡◌, ◌&&◌};
ghost use Rattle.checked.specs.Checked.{answered};
ghost use Rattle.checked.specs.Told.{told, failed};
ghost use Rattle.checked.specs.Answers.{Lent};
ghost use Rattle.integrals.specs.Sums.{finite_sums};
ghost use Rattle.revolutions.specs.Closings.{sigma, close_c, close_due};

use checked::{Refusal, require};
use cones::Cone;
use integrals::{Integrals, SurfaceIntegrals};
use vectors::formula::plus;

// 1 where the body lies inside, else -1.
fn sigma(convex: bool) -> f64
    ensures { result ≡ sigma convex }
{
    if convex { 1.0 } else { -1.0 }
}

// The sums of a body with those of a face added.
fn joined(acc: Integrals, convex: bool, sums: Integrals) -> Result<Integrals, Refusal>
    ensures { told result ≡ answered (close_c acc convex sums) }
{
    let a = acc.surface;
    let b = sums.surface;
    let moment = plus(a.moment, b.moment);
    let area_vector = plus(a.area_vector, b.area_vector);
    let s = SurfaceIntegrals {
        six_v: a.six_v + b.six_v,
        moment,
        area: a.area + sigma(convex) * b.area,
        area_vector,
    };
    let surface = s.finite()?;
    Ok(Integrals { surface })
}

fn are_finite(acc: Integrals, sums: Integrals) -> bool
    ensures { result ≡ (finite_sums acc && finite_sums sums) }
{
    acc.is_finite() & sums.is_finite()
}

// The sums of a body with those of a face added, once its last path is.
pub fn closed(acc: Integrals, cone: Cone, sums: Integrals) -> Result<Integrals, Refusal>
    ensures { told result ≡ close_due cone sums acc }
{
    require(cone.is_within(), Refusal::OutOfRange)?;
    require(are_finite(acc, sums), Refusal::BadBoxOrSums)?;
    joined(acc, cone.convex, sums)
}

// The lent sums with those of a face added; where it is refused they are as they were.
pub fn close(acc: &mut Integrals, cone: Cone, sums: Integrals) -> Result<(), Refusal>
    ensures { Lent (close_due cone sums) acc.old (failed result) acc.new }
{
    let t = closed(*acc, cone, sums)?;
    *acc = t;
    Ok(())
}
