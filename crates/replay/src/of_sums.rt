// Sums over faces.
use exports::of_sums::{
    jr_revolution_add_arc, jr_revolution_add_piece, jr_revolution_close, jr_revolution_open,
    jr_segment, jr_wall,
};
use replay_lines::answers::{HELD, is_answer, is_change};
use replay_lines::inputs::{is_set, number, numbers, tag};

pub(crate) fn segment(line: &[u8]) -> bool {
    let mut sums = numbers::<8>(line, 22);
    let r = jr_segment(
        &mut sums,
        &numbers(line, 0),
        &numbers(line, 7),
        &numbers(line, 10),
        &numbers(line, 13),
        &numbers(line, 16),
        &numbers(line, 19),
    );
    is_change(line, 30, 22, r, &sums)
}

pub(crate) fn open(line: &[u8]) -> bool {
    let mut out = [HELD; 8];
    let r = jr_revolution_open(&numbers(line, 0), &numbers(line, 8), &mut out);
    is_answer(line, 11, r, &out)
}

pub(crate) fn add_arc(line: &[u8]) -> bool {
    let mut sums = numbers::<8>(line, 24);
    let r = jr_revolution_add_arc(
        &numbers(line, 0),
        &numbers(line, 8),
        &numbers(line, 11),
        &numbers(line, 18),
        &numbers(line, 21),
        &mut sums,
    );
    is_change(line, 32, 24, r, &sums)
}

pub(crate) fn add_piece(line: &[u8]) -> bool {
    let mut sums = numbers::<8>(line, 39);
    let r = jr_revolution_add_piece(
        &numbers(line, 0),
        &numbers(line, 8),
        &numbers(line, 11),
        tag(line, 37),
        tag(line, 38),
        &mut sums,
    );
    is_change(line, 47, 39, r, &sums)
}

pub(crate) fn close(line: &[u8]) -> bool {
    let mut sums = numbers::<8>(line, 17);
    let r = jr_revolution_close(
        &numbers(line, 0),
        is_set(line, 8),
        &numbers(line, 9),
        &mut sums,
    );
    is_change(line, 25, 17, r, &sums)
}

pub(crate) fn wall(line: &[u8]) -> bool {
    let mut sums = numbers::<8>(line, 33);
    let r = jr_wall(
        &mut sums,
        &numbers(line, 0),
        tag(line, 26),
        tag(line, 27),
        number(line, 28),
        number(line, 29),
        &numbers(line, 30),
    );
    is_change(line, 41, 33, r, &sums)
}
