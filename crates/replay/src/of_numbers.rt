// Numbers.
use exports::of_numbers::{
    jr_acos, jr_atan2, jr_ceil, jr_hypot, jr_round, jr_sin, jr_sincos, jr_sqrt,
};
use replay_lines::answers::{HELD, is_answer, is_value};
use replay_lines::inputs::number;

pub(crate) fn sqrt(line: &[u8]) -> bool {
    is_value(line, 1, jr_sqrt(number(line, 0)))
}

pub(crate) fn ceil(line: &[u8]) -> bool {
    is_value(line, 1, jr_ceil(number(line, 0)))
}

pub(crate) fn round(line: &[u8]) -> bool {
    is_value(line, 1, jr_round(number(line, 0)))
}

pub(crate) fn sin(line: &[u8]) -> bool {
    let mut out = [HELD; 1];
    let r = jr_sin(number(line, 0), &mut out);
    is_answer(line, 1, r, &out)
}

pub(crate) fn sincos(line: &[u8]) -> bool {
    let mut out = [HELD; 2];
    let r = jr_sincos(number(line, 0), &mut out);
    is_answer(line, 1, r, &out)
}

pub(crate) fn atan2(line: &[u8]) -> bool {
    is_value(line, 2, jr_atan2(number(line, 0), number(line, 1)))
}

pub(crate) fn acos(line: &[u8]) -> bool {
    is_value(line, 1, jr_acos(number(line, 0)))
}

pub(crate) fn hypot(line: &[u8]) -> bool {
    is_value(line, 2, jr_hypot(number(line, 0), number(line, 1)))
}
