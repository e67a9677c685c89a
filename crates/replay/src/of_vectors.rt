// Vectors.
use exports::of_vectors::{
    jr_vec3_cross, jr_vec3_difference, jr_vec3_dominant_axis, jr_vec3_dot, jr_vec3_negation,
    jr_vec3_sum, jr_vec3_times,
};
use replay_lines::answers::{HELD, HELD_COUNT, is_answer, is_count};
use replay_lines::inputs::{number, numbers};

pub(crate) fn dot(line: &[u8]) -> bool {
    let mut out = [HELD; 1];
    let r = jr_vec3_dot(&numbers(line, 0), &numbers(line, 3), &mut out);
    is_answer(line, 6, r, &out)
}

pub(crate) fn cross(line: &[u8]) -> bool {
    let mut out = [HELD; 3];
    let r = jr_vec3_cross(&numbers(line, 0), &numbers(line, 3), &mut out);
    is_answer(line, 6, r, &out)
}

pub(crate) fn sum(line: &[u8]) -> bool {
    let mut out = [HELD; 3];
    let r = jr_vec3_sum(&numbers(line, 0), &numbers(line, 3), &mut out);
    is_answer(line, 6, r, &out)
}

pub(crate) fn difference(line: &[u8]) -> bool {
    let mut out = [HELD; 3];
    let r = jr_vec3_difference(&numbers(line, 0), &numbers(line, 3), &mut out);
    is_answer(line, 6, r, &out)
}

pub(crate) fn negation(line: &[u8]) -> bool {
    let mut out = [HELD; 3];
    let r = jr_vec3_negation(&numbers(line, 0), &mut out);
    is_answer(line, 3, r, &out)
}

pub(crate) fn times(line: &[u8]) -> bool {
    let mut out = [HELD; 3];
    let r = jr_vec3_times(&numbers(line, 0), number(line, 3), &mut out);
    is_answer(line, 4, r, &out)
}

pub(crate) fn dominant_axis(line: &[u8]) -> bool {
    let mut out = [HELD_COUNT; 1];
    let r = jr_vec3_dominant_axis(&numbers(line, 0), &mut out);
    is_count(line, 3, r, &out)
}
