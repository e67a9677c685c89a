// Cones and frames.
use exports::of_frames::{jr_cone_frame, jr_frame_angle, jr_frame_point};
use replay_lines::answers::{HELD, is_answer};
use replay_lines::inputs::{number, numbers};

pub(crate) fn of_cone(line: &[u8]) -> bool {
    let mut out = [HELD; 12];
    let r = jr_cone_frame(&numbers(line, 0), &mut out);
    is_answer(line, 8, r, &out)
}

pub(crate) fn angle(line: &[u8]) -> bool {
    let mut out = [HELD; 1];
    let r = jr_frame_angle(&numbers(line, 0), &numbers(line, 12), &mut out);
    is_answer(line, 15, r, &out)
}

pub(crate) fn point(line: &[u8]) -> bool {
    let mut out = [HELD; 3];
    let r = jr_frame_point(
        &numbers(line, 0),
        number(line, 12),
        number(line, 13),
        number(line, 14),
        &mut out,
    );
    is_answer(line, 15, r, &out)
}
