// An arc of a profile.
#![tactic(auto)]

ghost use Rattle.std.specs.Prelude.{◌≡◌, ◌&&◌};
ghost use Rattle.checked.specs.Told.{told};
ghost use Rattle.vectors.specs.Vectors.{within2};
ghost use Rattle.profile_arcs.specs.Profiles.{turn_due};

use checked::{Refusal, require};
use vectors::{Vec2, is_within2};

pub mod angles;
pub mod formula;

// An edge of a profile that is an arc about `center`, counterclockwise where `ccw` is true.
#[derive(Clone, Copy)]
pub struct ProfileArc {
    pub center: Vec2,
    pub ccw: bool,
}

impl ProfileArc {
    fn is_handed(self, a: Vec2, b: Vec2) -> bool
        ensures { result ≡ (within2 self.center && (within2 a && within2 b)) }
    {
        let c = self.center;
        is_within2(c) & (is_within2(a) & is_within2(b))
    }

    // The angle turned about the centre from a to b; one point twice is a full circle.
    #[tactic(auto, using(checked::specs::ToldLaws::exit_is, checked::specs::ToldLaws::passing_number, checked::specs::ToldLaws::passes), unfolding(crate::specs::Profiles::turn_due))]
    pub fn turn(self, a: Vec2, b: Vec2) -> Result<f64, Refusal>
        ensures { told result ≡ turn_due self a b }
    {
        require(self.is_handed(a, b), Refusal::OutOfRange)?;
        formula::turn(self, a, b)
    }
}
