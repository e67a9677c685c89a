// Developments.
use exports::of_developments::{
    jr_development_along, jr_development_moved, jr_development_point, jr_development_radial,
    jr_development_unroll,
};
use replay_lines::answers::{HELD, is_answer};
use replay_lines::inputs::{number, numbers};

pub(crate) fn radial(line: &[u8]) -> bool {
    let mut out = [HELD; 3];
    let r = jr_development_radial(&numbers(line, 0), number(line, 10), &mut out);
    is_answer(line, 11, r, &out)
}

pub(crate) fn point(line: &[u8]) -> bool {
    let mut out = [HELD; 3];
    let r = jr_development_point(
        &numbers(line, 0),
        &numbers(line, 10),
        number(line, 12),
        &mut out,
    );
    is_answer(line, 13, r, &out)
}

pub(crate) fn along(line: &[u8]) -> bool {
    let mut out = [HELD; 3];
    let r = jr_development_along(
        &numbers(line, 0),
        &numbers(line, 10),
        &numbers(line, 12),
        number(line, 14),
        &mut out,
    );
    is_answer(line, 15, r, &out)
}

pub(crate) fn unroll(line: &[u8]) -> bool {
    let mut out = [HELD; 3];
    let r = jr_development_unroll(
        &numbers(line, 0),
        &numbers(line, 10),
        number(line, 13),
        &mut out,
    );
    is_answer(line, 14, r, &out)
}

pub(crate) fn moved(line: &[u8]) -> bool {
    let mut out = [HELD; 10];
    let r = jr_development_moved(&numbers(line, 0), &numbers(line, 10), &mut out);
    is_answer(line, 22, r, &out)
}
