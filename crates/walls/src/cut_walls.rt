// The integrals of the wall of a cut: the function `wall` of the Rust, whose name differs only in
// the case of a letter from that of a surface's case. What a program may call is here, the formulas
// are in `formula`.
ghost use Rattle.std.specs.Prelude.{◌≡◌};
ghost use Rattle.checked.specs.Told.{told, failed};
ghost use Rattle.checked.specs.Answers.{Lent};
ghost use Rattle.walls.specs.Entries.{wall_tests, wall_due};

use checked::{Refusal, require};
use integrals::Integrals;
use pieces::Rolled;
use vectors::{Vec2, Vec3, is_within2, is_within3};

pub mod formula;

// The tests of all that is handed in.
fn require_wall(acc: Integrals, p: Rolled, r0: f64, r1: f64, o: Vec3) -> Result<(), Refusal>
    ensures { failed result ≡ wall_tests p r0 r1 o acc }
{
    require(
        is_within2(Vec2 { x: r0, y: r1 }) & is_within3(o),
        Refusal::OutOfRange,
    )?;
    p.tried()?;
    require(acc.is_finite(), Refusal::BadBoxOrSums)
}

// The sums of a body with those of the wall over a piece added, from r0 to r1 from the axis of its
// development; volumes are measured from o.
#[tactic(auto, using(checked::specs::ToldLaws::exit_is, checked::specs::ToldLaws::passing_number, checked::specs::ToldLaws::passes), unfolding(crate::specs::Entries::wall_due))]
pub fn with_cut_wall(
    acc: Integrals,
    p: Rolled,
    r0: f64,
    r1: f64,
    o: Vec3,
) -> Result<Integrals, Refusal>
    ensures { told result ≡ wall_due p r0 r1 o acc }
{
    require_wall(acc, p, r0, r1, o)?;
    formula::over(p, r0, r1, o, acc)
}

// The lent sums with those of the wall added; where it is refused they are as they were.
pub fn cut_wall(acc: &mut Integrals, p: Rolled, r0: f64, r1: f64, o: Vec3) -> Result<(), Refusal>
    ensures { Lent (wall_due p r0 r1 o) acc.old (failed result) acc.new }
{
    let t = with_cut_wall(*acc, p, r0, r1, o)?;
    *acc = t;
    Ok(())
}
