// Records as arrays of numbers: waves, meets, traces.
#![tactic(auto, unfolding(crate::specs::Records::known, crate::specs::TraceRecords::is_turn, crate::specs::TraceRecords::is_trace))]

ghost use Rattle.std.specs.Prelude.{◌≡◌, ◌+◌, ◌≤◌, length};
ghost use Rattle.c_arrays.specs.Records.{known};
ghost use Rattle.c_arrays.specs.TraceRecords.{wave_at, wave, is_turn, turn_of, meet_at, meet, is_trace, trace_at, trace_of};

use crate::vec3_at;
use meets::{Angles, Meet};
use traces::Trace;
use waves::Wave;

// The wave whose three numbers stand from place k on.
fn wave_at(a: &[f64], k: usize) -> Wave
    requires { k + 3 ≤ length a.now }
    ensures { result ≡ wave_at a.now k }
{
    Wave {
        a: a[k],
        b: a[k + 1],
        c: a[k + 2],
    }
}

pub fn wave_of(a: &[f64; 3]) -> Wave
    ensures { result ≡ wave a.now }
{
    wave_at(a, 0)
}

// The two angles count where the tag is not 0.
fn turn_of(tag: u32, from: f64, to: f64) -> Option<Angles>
    ensures { result ≡ turn_of tag from to }
{
    match tag {
        0 => None,
        _ => Some(Angles { from, to }),
    }
}

// The meet whose ten numbers stand from place k on: without `turn` where the tag is 0.
pub fn meet_at(a: &[f64], k: usize, tag: u32) -> Meet
    requires { k + 10 ≤ length a.now }
    ensures { result ≡ meet_at a.now k tag }
{
    Meet {
        origin: vec3_at(a, k),
        axis: vec3_at(a, k + 3),
        radius: a[k + 6],
        own: a[k + 7],
        turn: turn_of(tag, a[k + 8], a[k + 9]),
    }
}

pub fn meet_of(a: &[f64; 10], tag: u32) -> Meet
    ensures { result ≡ meet a.now tag }
{
    meet_at(a, 0, tag)
}

// The same where the tag is known: 0 without `turn`, 1 with it.
pub fn known_meet(a: &[f64; 10], tag: u32) -> Option<Meet>
    ensures { result ≡ known (is_turn tag) (meet a.now tag) }
{
    match tag {
        0..=1 => Some(meet_of(a, tag)),
        _ => None,
    }
}

// The trace whose ten numbers stand from place k on.
pub fn trace_at(a: &[f64], k: usize, kind: u32) -> Trace
    requires { k + 10 ≤ length a.now }
    ensures { result ≡ trace_at a.now k kind }
{
    match kind {
        1 => Trace::Wave(wave_at(a, k)),
        2 => Trace::Meet(meet_at(a, k, 0)),
        _ => Trace::Meet(meet_at(a, k, 1)),
    }
}

pub fn trace_of(a: &[f64; 10], kind: u32) -> Trace
    ensures { result ≡ trace_of a.now kind }
{
    trace_at(a, 0, kind)
}

// The same where the tag is known: 1 a wave, 2 a meet without `turn`, 3 a meet with it.
pub fn known_trace(a: &[f64; 10], kind: u32) -> Option<Trace>
    ensures { result ≡ known (is_trace kind) (trace_of a.now kind) }
{
    match kind {
        1..=3 => Some(trace_of(a, kind)),
        _ => None,
    }
}
