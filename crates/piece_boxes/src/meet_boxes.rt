// The box in its development of a piece that follows a meet: at its ends, or where it turns between
// them.
ghost use Rattle.std.specs.Prelude.{◌≡◌, IfOk};
ghost use Rattle.checked.specs.Checked.{answered, due};
ghost use Rattle.checked.specs.Answers.{and_then};
ghost use Rattle.checked.specs.Loops.{fold_c};
ghost use Rattle.checked.specs.Told.{told};
ghost use Rattle.piece_boxes.specs.MeetBoxes.{is_end, sample_c, end_c, start_c, span_c, box_c};
ghost use Rattle.piece_boxes.specs.SampleRows.{Stored};

use crate::brackets::{FlatBox, bracketed, widen};
use checked::{Refusal, finite};
use piece_curves::meet_curves::{MeetCurve, motion, point};
use vectors::Vec2;

// The derivatives at 65 places, and the box of the two ends.
#[derive(Clone, Copy)]
struct Samples {
    slopes: [Vec2; 65],
    ends: FlatBox,
}

// The derivatives at place k.
fn sample(c: MeetCurve, k: u16) -> Result<Vec2, Refusal>
    ensures { told result ≡ answered (sample_c c k) }
{
    let t = finite((k as f64) / 64.0)?;
    let m = motion(c, t);
    let x = m.u?;
    let y = m.v?;
    Ok(Vec2 { x, y })
}

fn is_end(k: u16) -> bool
    ensures { result ≡ is_end k }
{
    (k == 0) | (k == 64)
}

// The box with the point at place k, where that is an end.
fn end(c: MeetCurve, k: u16, b: FlatBox) -> Result<FlatBox, Refusal>
    ensures { told result ≡ answered (end_c c k b) }
{
    if is_end(k) {
        let t = finite((k as f64) / 64.0)?;
        let p = point(c, t)?;
        Ok(widen(b, p))
    } else {
        Ok(b)
    }
}

fn sampled(c: MeetCurve) -> Result<Samples, Refusal>
    ensures ends { and_then (told result) (λ s. due s.ends) ≡ answered (start_c c) }
    ensures stored { IfOk result (λ s. Stored c 65 s.slopes) }
{
    let far = 1.0 / 0.0;
    let mut ends = FlatBox {
        low: Vec2 { x: far, y: far },
        high: Vec2 { x: -far, y: -far },
    };
    let mut slopes = [Vec2 { x: 0.0, y: 0.0 }; 65];
    for k in 0..65 {
        slopes[k as usize] = sample(c, k)?;
        ends = end(c, k, ends)?;
    }
    Ok(Samples { slopes, ends })
}

// The box with the turning points between all samples.
fn spanned(c: MeetCurve, slopes: &[Vec2; 65], start: FlatBox) -> Result<FlatBox, Refusal>
    requires { Stored c 65 slopes.now }
    ensures { told result ≡ answered (fold_c 64 (span_c c) start) }
{
    let mut b = start;
    for k in 0..64 {
        let d = slopes[k as usize];
        let e = slopes[k as usize + 1];
        b = bracketed(c, false, k, d.x, e.x, b)?;
        b = bracketed(c, true, k, d.y, e.y, b)?;
    }
    Ok(b)
}

// The least and greatest u and v. A refusal of a sample comes before any of a halving.
#[inline(never)]
pub fn meet_box(c: MeetCurve) -> Result<FlatBox, Refusal>
    ensures { told result ≡ answered (box_c c) }
{
    let s = sampled(c)?;
    spanned(c, &s.slopes, s.ends)
}
