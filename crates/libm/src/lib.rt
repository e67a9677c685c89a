// The functions of libm that the formulas call, each in the file of libm that it comes from.
#![tactic(auto)]

pub mod acos;
pub mod atan;
pub mod atan2;
pub mod hypot;
pub mod k_trig;
pub mod rem_pio2;
pub mod roots;
pub mod sincos;
