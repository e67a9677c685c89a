// Curves in space: 27 numbers, then the tags of the curve, the arc and the trace. `of_rows` has the points that are drawn.
use exports::of_curves::{jr_curve_arc, jr_curve_extend_bounds, jr_curve_moved, jr_curve_reversed};
use replay_lines::answers::{HELD, HELD_TAG, are_tags, is_answer, is_change, is_record};
use replay_lines::inputs::{numbers, tag};

pub(crate) fn reversed(line: &[u8]) -> bool {
    let mut out = [HELD; 27];
    let mut tags = [HELD_TAG; 2];
    let r = jr_curve_reversed(
        &numbers(line, 0),
        tag(line, 27),
        tag(line, 28),
        tag(line, 29),
        &mut out,
        &mut tags,
    );
    is_record(line, 30, 2, r, &out) & are_tags(line, 57, r, &tags)
}

pub(crate) fn moved(line: &[u8]) -> bool {
    let mut out = [HELD; 27];
    let r = jr_curve_moved(
        &numbers(line, 0),
        tag(line, 27),
        tag(line, 28),
        tag(line, 29),
        &numbers(line, 30),
        &mut out,
    );
    is_record(line, 42, 0, r, &out)
}

pub(crate) fn arc(line: &[u8]) -> bool {
    let mut out = [HELD; 7];
    let r = jr_curve_arc(
        &numbers(line, 0),
        tag(line, 27),
        tag(line, 28),
        tag(line, 29),
        &mut out,
    );
    is_answer(line, 30, r, &out)
}

pub(crate) fn extend_bounds(line: &[u8]) -> bool {
    let mut b = numbers::<6>(line, 36);
    let r = jr_curve_extend_bounds(
        &numbers(line, 0),
        tag(line, 27),
        tag(line, 28),
        tag(line, 29),
        &numbers(line, 30),
        &numbers(line, 33),
        &mut b,
    );
    is_change(line, 42, 36, r, &b)
}
