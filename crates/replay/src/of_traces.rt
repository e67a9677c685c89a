// Waves, meets and traces.
use exports::of_traces::{jr_meet_point, jr_trace_v, jr_wave_at, jr_wave_range};
use replay_lines::answers::{HELD, is_answer};
use replay_lines::inputs::{number, numbers, tag};

pub(crate) fn wave_at(line: &[u8]) -> bool {
    let mut out = [HELD; 3];
    let r = jr_wave_at(
        &numbers(line, 0),
        number(line, 3),
        number(line, 4),
        &mut out,
    );
    is_answer(line, 5, r, &out)
}

pub(crate) fn wave_range(line: &[u8]) -> bool {
    let mut out = [HELD; 2];
    let r = jr_wave_range(
        &numbers(line, 0),
        number(line, 3),
        number(line, 4),
        number(line, 5),
        &mut out,
    );
    is_answer(line, 6, r, &out)
}

pub(crate) fn meet_point(line: &[u8]) -> bool {
    let mut out = [HELD; 9];
    let r = jr_meet_point(
        &numbers(line, 0),
        tag(line, 10),
        number(line, 11),
        number(line, 12),
        &mut out,
    );
    is_answer(line, 13, r, &out)
}

pub(crate) fn v(line: &[u8]) -> bool {
    let mut out = [HELD; 1];
    let r = jr_trace_v(
        &numbers(line, 0),
        tag(line, 10),
        number(line, 11),
        number(line, 12),
        &mut out,
    );
    is_answer(line, 13, r, &out)
}
