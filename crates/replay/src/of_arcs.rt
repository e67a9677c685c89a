// Directions, profile arcs and arcs; `of_rows` has the points that are drawn.
use exports::of_arcs::{
    jr_arc_at, jr_arc_extend_bounds, jr_arc_reversed, jr_arc_sweep, jr_per_turn,
    jr_profile_arc_turn, jr_unit,
};
use replay_lines::answers::{HELD, is_answer, is_change};
use replay_lines::inputs::{is_set, number, numbers};

pub(crate) fn turn(line: &[u8]) -> bool {
    let mut out = [HELD; 1];
    let r = jr_profile_arc_turn(
        &numbers(line, 0),
        is_set(line, 2),
        &numbers(line, 3),
        &numbers(line, 5),
        &mut out,
    );
    is_answer(line, 7, r, &out)
}

pub(crate) fn unit(line: &[u8]) -> bool {
    let mut out = [HELD; 3];
    let r = jr_unit(&numbers(line, 0), &mut out);
    is_answer(line, 3, r, &out)
}

pub(crate) fn per_turn(line: &[u8]) -> bool {
    let mut out = [HELD; 1];
    let r = jr_per_turn(number(line, 0), number(line, 1), &mut out);
    is_answer(line, 2, r, &out)
}

pub(crate) fn reversed(line: &[u8]) -> bool {
    let mut out = [HELD; 7];
    let r = jr_arc_reversed(&numbers(line, 0), &mut out);
    is_answer(line, 7, r, &out)
}

pub(crate) fn sweep(line: &[u8]) -> bool {
    let mut out = [HELD; 1];
    let r = jr_arc_sweep(
        &numbers(line, 0),
        &numbers(line, 7),
        &numbers(line, 10),
        &mut out,
    );
    is_answer(line, 13, r, &out)
}

pub(crate) fn at(line: &[u8]) -> bool {
    let mut out = [HELD; 3];
    let r = jr_arc_at(
        &numbers(line, 0),
        &numbers(line, 7),
        number(line, 10),
        &mut out,
    );
    is_answer(line, 11, r, &out)
}

pub(crate) fn extend_bounds(line: &[u8]) -> bool {
    let mut b = numbers::<6>(line, 13);
    let r = jr_arc_extend_bounds(
        &numbers(line, 0),
        &numbers(line, 7),
        &numbers(line, 10),
        &mut b,
    );
    is_change(line, 19, 13, r, &b)
}
