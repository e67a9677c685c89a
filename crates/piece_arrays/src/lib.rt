// A piece of a development as an array of 26 numbers beside two tags, read and put. What the tags do
// not use is not read, and stays as it was where a piece is put.
//
// The parts stand in a slice, so that an array that holds more than a piece can hold one too.
#![tactic(auto)]

ghost use Rattle.std.specs.Prelude.{◌≡◌, ◌≤◌, length};
ghost use Rattle.c_arrays.specs.Records.{over};
ghost use Rattle.piece_arrays.specs.Arrays.{CENTRE, TRACE, is_piece, piece_arc, piece_trace, piece, arc_tag, trace_tag, of_centre, of_meet, of_trace, with_piece};

use c_arrays::development_records::{development_at, put_development};
use c_arrays::trace_records::trace_at;
use c_arrays::{put_vec2, put_vec3, vec2_at};
use meets::Meet;
use pieces::Rolled;
use profile_arcs::ProfileArc;
use traces::Trace;
use vectors::Vec2;

// Where the parts stand behind the ten numbers of the development: the two ends, the arc's centre,
// and the trace, whose last numbers are the two angles of a meet.
const FROM: usize = 10;

const TO: usize = 12;

const CENTRE: usize = 14;

const TRACE: usize = 16;

const ANGLES: usize = 24;

// Whether both tags are a piece's. Its arc: 0 none, 1 counterclockwise, 2 clockwise; its trace: 0 none, else a trace's own.
#[tactic(auto, unfolding(crate::specs::Arrays::is_piece))]
pub fn is_piece(arc: u32, trace: u32) -> bool
    ensures { result ≡ is_piece arc trace }
{
    (arc <= 2) & (trace <= 3)
}

fn arc_of(tag: u32, c: Vec2) -> Option<ProfileArc>
    ensures { result ≡ piece_arc tag c }
{
    match tag {
        0 => None,
        _ => Some(ProfileArc {
            center: c,
            ccw: tag == 1,
        }),
    }
}

fn trace_of(a: &[f64], tag: u32) -> Option<Trace>
    requires { 26 ≤ length a.now }
    ensures { result ≡ piece_trace a.now tag }
{
    match tag {
        0 => None,
        _ => Some(trace_at(a, TRACE, tag)),
    }
}

// The piece whose numbers an array begins with.
pub fn piece_at(a: &[f64], arc: u32, trace: u32) -> Rolled
    requires { 26 ≤ length a.now }
    ensures { result ≡ piece a.now arc trace }
{
    Rolled {
        dev: development_at(a, 0),
        from: vec2_at(a, FROM),
        to: vec2_at(a, TO),
        arc: arc_of(arc, vec2_at(a, CENTRE)),
        trace: trace_of(a, trace),
    }
}

// The piece of an array. Inlined, since a call copies the piece.
#[inline(always)]
pub fn piece_of(a: &[f64; 26], arc: u32, trace: u32) -> Rolled
    ensures { result ≡ piece a.now arc trace }
{
    piece_at(a, arc, trace)
}

// 0 without an arc, 1 counterclockwise, 2 clockwise.
#[tactic(auto, unfolding(crate::specs::Arrays::arc_tag))]
pub fn arc_tag(arc: Option<ProfileArc>) -> u32
    ensures { result ≡ arc_tag arc }
{
    match arc {
        None => 0,
        Some(a) if a.ccw => 1,
        Some(_) => 2,
    }
}

// 0 without a trace, 1 a wave, 2 a meet without `turn`, 3 a meet with it.
#[tactic(auto, unfolding(crate::specs::Arrays::trace_tag, crate::specs::Arrays::turn_tag))]
pub fn trace_tag(trace: Option<Trace>) -> u32
    ensures { result ≡ trace_tag trace }
{
    match trace {
        None => 0,
        Some(Trace::Wave(_)) => 1,
        Some(Trace::Meet(Meet { turn: None, .. })) => 2,
        Some(Trace::Meet(Meet { turn: Some(_), .. })) => 3,
    }
}

// The arc's centre, where there is one.
#[tactic(auto, unfolding(c_arrays::specs::Records::over, crate::specs::Arrays::of_centre))]
fn put_centre(arc: Option<ProfileArc>, out: &mut [f64])
    requires { 26 ≤ length out.old }
    ensures { out.new ≡ over out.old CENTRE (of_centre arc) }
{
    if let Some(a) = arc {
        put_vec2(a.center, out, CENTRE);
    }
}

// A meet, with its two angles where there are two.
#[tactic(auto, unfolding(c_arrays::specs::Records::over, crate::specs::Arrays::of_meet, crate::specs::Arrays::of_turn))]
fn put_meet(m: Meet, out: &mut [f64])
    requires { 26 ≤ length out.old }
    ensures { out.new ≡ over out.old TRACE (of_meet m) }
{
    put_vec3(m.origin, out, TRACE);
    put_vec3(m.axis, out, TRACE + 3);
    out[TRACE + 6] = m.radius;
    out[TRACE + 7] = m.own;
    if let Some(turn) = m.turn {
        out[ANGLES] = turn.from;
        out[ANGLES + 1] = turn.to;
    }
}

#[tactic(auto, unfolding(c_arrays::specs::Records::over, crate::specs::Arrays::of_trace))]
fn put_trace(trace: Option<Trace>, out: &mut [f64])
    requires { 26 ≤ length out.old }
    ensures { out.new ≡ over out.old TRACE (of_trace trace) }
{
    match trace {
        None => {}
        Some(Trace::Wave(w)) => {
            out[TRACE] = w.a;
            out[TRACE + 1] = w.b;
            out[TRACE + 2] = w.c;
        }
        Some(Trace::Meet(m)) => put_meet(m, out),
    }
}

// A piece put to the start of an array.
#[tactic(auto, unfolding(c_arrays::specs::Records::over, crate::specs::Arrays::with_piece))]
pub fn put_piece(p: Rolled, out: &mut [f64])
    requires { 26 ≤ length out.old }
    ensures { out.new ≡ with_piece out.old p }
{
    put_development(p.dev, out);
    put_vec2(p.from, out, FROM);
    put_vec2(p.to, out, TO);
    put_centre(p.arc, out);
    put_trace(p.trace, out);
}
