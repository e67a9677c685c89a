// What a piece of a development follows, from its first end to its last, ready to be followed: of a
// meet the pipe is worked out once.
#![tactic(auto)]

ghost use Rattle.std.specs.Prelude.{◌≡◌};
ghost use Rattle.checked.specs.Checked.{answered};
ghost use Rattle.checked.specs.Told.{told};
ghost use Rattle.piece_curves.specs.PieceCurves.{kind_c, curve_c};

use crate::meet_curves::{MeetCurve, meet_curve};
use checked::Refusal;
use profile_arcs::ProfileArc;
use traces::Trace;
use vectors::Vec2;
use waves::Wave;

pub mod meet_curves;
pub mod points;
pub mod space_points;

#[derive(Clone, Copy)]
pub enum CurveKind {
    Straight,
    Arc(ProfileArc),
    Wave(Wave),
    Meet(MeetCurve),
}

// Where a piece of a development begins and ends, and the neutral radius.
#[derive(Clone, Copy)]
pub struct Ends {
    pub from: Vec2,
    pub to: Vec2,
    pub neutral: f64,
}

// A piece in its development: its ends, and what it follows between them.
#[derive(Clone, Copy)]
pub struct PieceCurve {
    pub ends: Ends,
    pub way: CurveKind,
}

// Along a trace where there is one, else along an arc, else straight on.
#[inline(always)]
fn way_of(ends: Ends, arc: Option<ProfileArc>, trace: Option<Trace>) -> Result<CurveKind, Refusal>
    ensures { told result ≡ answered (kind_c ends.from ends.to ends.neutral arc trace) }
{
    match (trace, arc) {
        (Some(Trace::Wave(w)), _) => Ok(CurveKind::Wave(w)),
        (Some(Trace::Meet(m)), _) => Ok(CurveKind::Meet(meet_curve(m, ends)?)),
        (None, Some(a)) => Ok(CurveKind::Arc(a)),
        (None, None) => Ok(CurveKind::Straight),
    }
}

// The piece of these ends, arc and trace.
#[inline(always)]
pub fn curve_of(
    ends: Ends,
    arc: Option<ProfileArc>,
    trace: Option<Trace>,
) -> Result<PieceCurve, Refusal>
    ensures { told result ≡ answered (curve_c ends.from ends.to ends.neutral arc trace) }
{
    let way = way_of(ends, arc, trace)?;
    Ok(PieceCurve { ends, way })
}
