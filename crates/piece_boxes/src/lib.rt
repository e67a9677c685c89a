// The box of a piece: in the development, and the points that widen a box in space.
#![tactic(auto, unfolding(crate::specs::CurveBoxes::ends, crate::specs::Brackets::widened, crate::specs::Brackets::agree, crate::specs::MeetBoxes::is_end))]

pub mod brackets;
pub mod curve_boxes;
pub mod meet_boxes;
pub mod space_boxes;
