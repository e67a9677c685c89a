// Waves, meets and traces.
ghost use Rattle.std.specs.Prelude.{◌≡◌};
ghost use Rattle.waves.specs.Entries as Waves;
ghost use Rattle.meets.specs.Entries as Meets;
ghost use Rattle.traces.specs.Traces as Traces;
ghost use Rattle.checked.specs.Answers.{number_of};
ghost use Rattle.c_arrays.specs.Records.{alone, after, tag_due};
ghost use Rattle.c_arrays.specs.TraceRecords.{wave, is_turn, meet, is_trace, trace_of, of_jet, of_span, of_points, some_due};

use c_arrays::UNKNOWN_TAG;
use c_arrays::trace_records::{known_meet, known_trace, wave_of};
use c_shapes::stored::{store, store_some};

// The v of the wave w at u and its first and second derivatives, the neutral radius being n.
pub fn jr_wave_at(w: &[f64; 3], u: f64, n: f64, out: &mut [f64; 3]) -> u32
    ensures number { result ≡ number_of (Waves.at_due (wave w.now) u n) }
    ensures out { out.new ≡ after of_jet out.old (Waves.at_due (wave w.now) u n) }
{
    store(wave_of(w).at(u, n), out)
}

// The least and the greatest v of the wave w from u0 to u1, the neutral radius being n.
pub fn jr_wave_range(w: &[f64; 3], u0: f64, u1: f64, n: f64, out: &mut [f64; 2]) -> u32
    ensures number { result ≡ number_of (Waves.range_due (wave w.now) u0 u1 n) }
    ensures out { out.new ≡ after of_span out.old (Waves.range_due (wave w.now) u0 u1 n) }
{
    store(wave_of(w).range(u0, u1, n), out)
}

// The point of the meet m on the generatrix at phi and its first and second derivatives, the
// neutral radius being n.
pub fn jr_meet_point(m: &[f64; 10], turn: u32, phi: f64, n: f64, out: &mut [f64; 9]) -> u32
    ensures number { result ≡ number_of (tag_due (is_turn turn) (Meets.point_due (meet m.now turn) phi n)) }
    ensures out { out.new ≡ after of_points out.old (tag_due (is_turn turn) (Meets.point_due (meet m.now turn) phi n)) }
{
    let Some(c) = known_meet(m, turn) else {
        return UNKNOWN_TAG;
    };
    store(c.point(phi, n), out)
}

// The v of the trace t at u, the neutral radius being n; 255 for a meet with `turn`, which has
// none.
pub fn jr_trace_v(t: &[f64; 10], kind: u32, u: f64, n: f64, out: &mut [f64; 1]) -> u32
    ensures number { result ≡ number_of (tag_due (is_trace kind) (some_due (Traces.v_due (trace_of t.now kind) u n))) }
    ensures out { out.new ≡ after alone out.old (tag_due (is_trace kind) (some_due (Traces.v_due (trace_of t.now kind) u n))) }
{
    let Some(c) = known_trace(t, kind) else {
        return UNKNOWN_TAG;
    };
    store_some(c.v(u, n), out)
}
