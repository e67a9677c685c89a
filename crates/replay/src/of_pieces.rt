// Pieces of a development: 26 numbers, then the tags of the arc and of the trace.
use exports::of_pieces::{
    jr_piece_at, jr_piece_chords, jr_piece_measure, jr_piece_normal, jr_piece_polyline,
    jr_piece_quadrature_pieces, jr_piece_reversed, jr_piece_second, jr_piece_uv_box,
};
use replay_lines::answers::{HELD, HELD_COUNT, HELD_TAG, are_tags, is_answer, is_count, is_record};
use replay_lines::inputs::{number, numbers, tag};

pub(crate) fn uv_box(line: &[u8]) -> bool {
    let mut out = [HELD; 4];
    let r = jr_piece_uv_box(&numbers(line, 0), tag(line, 26), tag(line, 27), &mut out);
    is_answer(line, 28, r, &out)
}

pub(crate) fn polyline(line: &[u8]) -> bool {
    let mut out = [HELD_COUNT; 1];
    let r = jr_piece_polyline(
        &numbers(line, 0),
        tag(line, 26),
        tag(line, 27),
        number(line, 28),
        &mut out,
    );
    is_count(line, 29, r, &out)
}

pub(crate) fn reversed(line: &[u8]) -> bool {
    let mut out = [HELD; 26];
    let mut tags = [HELD_TAG; 2];
    let r = jr_piece_reversed(
        &numbers(line, 0),
        tag(line, 26),
        tag(line, 27),
        &mut out,
        &mut tags,
    );
    is_record(line, 28, 2, r, &out) & are_tags(line, 54, r, &tags)
}

pub(crate) fn at(line: &[u8]) -> bool {
    let mut out = [HELD; 4];
    let r = jr_piece_at(
        &numbers(line, 0),
        tag(line, 26),
        tag(line, 27),
        number(line, 28),
        &mut out,
    );
    is_answer(line, 29, r, &out)
}

pub(crate) fn second(line: &[u8]) -> bool {
    let mut out = [HELD; 2];
    let r = jr_piece_second(
        &numbers(line, 0),
        tag(line, 26),
        tag(line, 27),
        number(line, 28),
        &mut out,
    );
    is_answer(line, 29, r, &out)
}

pub(crate) fn normal(line: &[u8]) -> bool {
    let mut out = [HELD; 3];
    let r = jr_piece_normal(
        &numbers(line, 0),
        tag(line, 26),
        tag(line, 27),
        &numbers(line, 28),
        number(line, 30),
        &mut out,
    );
    is_answer(line, 31, r, &out)
}

pub(crate) fn measure(line: &[u8]) -> bool {
    let mut out = [HELD; 3];
    let r = jr_piece_measure(&numbers(line, 0), tag(line, 26), tag(line, 27), &mut out);
    is_answer(line, 28, r, &out)
}

pub(crate) fn quadrature_pieces(line: &[u8]) -> bool {
    let mut out = [HELD_COUNT; 1];
    let r = jr_piece_quadrature_pieces(&numbers(line, 0), tag(line, 26), tag(line, 27), &mut out);
    is_count(line, 28, r, &out)
}

pub(crate) fn chords(line: &[u8]) -> bool {
    let mut out = [HELD_COUNT; 1];
    let r = jr_piece_chords(
        &numbers(line, 0),
        tag(line, 26),
        tag(line, 27),
        number(line, 28),
        number(line, 29),
        &mut out,
    );
    is_count(line, 30, r, &out)
}
