// Motions.
use exports::of_motions::{
    jr_rigid_apply, jr_rigid_apply_vector, jr_rigid_frame, jr_rigid_rotation,
};
use replay_lines::answers::{HELD, is_answer};
use replay_lines::inputs::{number, numbers};

pub(crate) fn rotation(line: &[u8]) -> bool {
    let mut out = [HELD; 12];
    let r = jr_rigid_rotation(&numbers(line, 0), number(line, 3), &mut out);
    is_answer(line, 4, r, &out)
}

pub(crate) fn frame(line: &[u8]) -> bool {
    let mut out = [HELD; 12];
    let r = jr_rigid_frame(
        &numbers(line, 0),
        &numbers(line, 3),
        &numbers(line, 6),
        &numbers(line, 9),
        &mut out,
    );
    is_answer(line, 12, r, &out)
}

pub(crate) fn apply(line: &[u8]) -> bool {
    let mut out = [HELD; 3];
    let r = jr_rigid_apply(&numbers(line, 0), &numbers(line, 12), &mut out);
    is_answer(line, 15, r, &out)
}

pub(crate) fn apply_vector(line: &[u8]) -> bool {
    let mut out = [HELD; 3];
    let r = jr_rigid_apply_vector(&numbers(line, 0), &numbers(line, 12), &mut out);
    is_answer(line, 15, r, &out)
}
