// Surfaces: 26 numbers, the tag of the surface, its flag, then the tags of the arc and of the trace.
use exports::of_surfaces::{
    jr_surface_moved, jr_surface_normal_at, jr_surface_plane, jr_surface_revolution,
};
use replay_lines::answers::{HELD, is_answer, is_record};
use replay_lines::inputs::{is_set, numbers, tag};

pub(crate) fn plane(line: &[u8]) -> bool {
    let mut out = [HELD; 6];
    let r = jr_surface_plane(
        &numbers(line, 0),
        tag(line, 26),
        is_set(line, 27),
        tag(line, 28),
        tag(line, 29),
        &mut out,
    );
    is_answer(line, 30, r, &out)
}

pub(crate) fn revolution(line: &[u8]) -> bool {
    let mut out = [HELD; 8];
    let r = jr_surface_revolution(
        &numbers(line, 0),
        tag(line, 26),
        is_set(line, 27),
        tag(line, 28),
        tag(line, 29),
        &mut out,
    );
    is_answer(line, 30, r, &out)
}

pub(crate) fn moved(line: &[u8]) -> bool {
    let mut out = [HELD; 26];
    let r = jr_surface_moved(
        &numbers(line, 0),
        tag(line, 26),
        is_set(line, 27),
        tag(line, 28),
        tag(line, 29),
        &numbers(line, 30),
        &mut out,
    );
    is_record(line, 42, 0, r, &out)
}

pub(crate) fn normal_at(line: &[u8]) -> bool {
    let mut out = [HELD; 3];
    let r = jr_surface_normal_at(
        &numbers(line, 0),
        tag(line, 26),
        is_set(line, 27),
        tag(line, 28),
        tag(line, 29),
        &numbers(line, 30),
        &mut out,
    );
    is_answer(line, 33, r, &out)
}
