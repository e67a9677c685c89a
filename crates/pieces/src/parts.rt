// What is tried of a piece that is handed in, and what it follows run the other way.
ghost use Rattle.std.specs.Prelude.{◌≡◌};
ghost use Rattle.pieces.specs.Tests.{arc_within, followed_within, both};
ghost use Rattle.pieces.specs.Reversals.{arc_back, turn_back, curve_back, trace_back};

use meets::{Angles, Meet};
use profile_arcs::ProfileArc;
use traces::Trace;
use vectors::is_within2;

pub fn is_arc_within(arc: Option<ProfileArc>) -> bool
    ensures { result ≡ arc_within arc }
{
    arc.is_none_or(|a| is_within2(a.center))
}

pub fn is_trace_within(trace: Option<Trace>) -> bool
    ensures { result ≡ followed_within trace }
{
    trace.is_none_or(|t| t.is_within_limit())
}

pub fn are_both(arc: Option<ProfileArc>, trace: Option<Trace>) -> bool
    ensures { result ≡ both arc trace }
{
    arc.is_some() & trace.is_some()
}

pub fn arc_back(arc: Option<ProfileArc>) -> Option<ProfileArc>
    ensures { result ≡ arc_back arc }
{
    arc.map(|a| ProfileArc { ccw: !a.ccw, ..a })
}

fn turn_back(turn: Option<Angles>) -> Option<Angles>
    ensures { result ≡ turn_back turn }
{
    turn.map(|a| Angles {
        from: a.to,
        to: a.from,
    })
}

fn curve_back(t: Trace) -> Trace
    ensures { result ≡ curve_back t }
{
    match t {
        Trace::Wave(w) => Trace::Wave(w),
        Trace::Meet(m) => Trace::Meet(Meet {
            turn: turn_back(m.turn),
            ..m
        }),
    }
}

pub fn trace_back(trace: Option<Trace>) -> Option<Trace>
    ensures { result ≡ trace_back trace }
{
    trace.map(curve_back)
}
