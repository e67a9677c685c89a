// Unit vectors: along a vector, and away from an axis. What a program may call is here, the bare formulas are in `formula`.
#![tactic(auto)]

ghost use Rattle.std.specs.Prelude.{◌≡◌};
ghost use Rattle.checked.specs.Told.{told};
ghost use Rattle.directions.specs.Directions.{unit_due};

use checked::{Refusal, require};
use vectors::{Vec3, is_within3};

pub mod formula;

// The vector of length 1 along v.
#[tactic(auto, using(checked::specs::ToldLaws::exit_is, checked::specs::ToldLaws::passing_number, checked::specs::ToldLaws::passes), unfolding(crate::specs::Directions::unit_due))]
pub fn unit(v: Vec3) -> Result<Vec3, Refusal>
    ensures { told result ≡ unit_due v }
{
    require(is_within3(v), Refusal::OutOfRange)?;
    formula::unit(v)
}
