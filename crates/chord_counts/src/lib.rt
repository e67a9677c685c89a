// How many chords a circle is drawn with: what a program may call is here, the bare formulas are in
// `formula`.
#![tactic(auto)]

ghost use Rattle.std.specs.Prelude.{◌≡◌, ◌&&◌};
ghost use Rattle.checked.specs.Told.{told};
ghost use Rattle.checked.specs.Checked.{within};
ghost use Rattle.chord_counts.specs.Chords.{per_turn_due};

use checked::{Refusal, is_within, require_drawing};

pub mod counts;
pub mod formula;

fn are_within(radius: f64, chord: f64) -> bool
    ensures { result ≡ (within radius && within chord) }
{
    is_within(radius) & is_within(chord)
}

// The chords that a full turn of a circle needs to stay within `chord` of it: 12 to 64.
#[tactic(auto, using(checked::specs::ToldLaws::exit_is, checked::specs::ToldLaws::passing_number, checked::specs::ToldLaws::passes), unfolding(crate::specs::Chords::per_turn_due))]
pub fn per_turn(radius: f64, chord: f64) -> Result<f64, Refusal>
    ensures { told result ≡ per_turn_due radius chord }
{
    require_drawing(are_within(radius, chord), chord)?;
    formula::per_turn(radius, chord)
}
