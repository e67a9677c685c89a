// What holds of edge files.
#![tactic(auto)]

pub mod arc_files;
pub mod file_boxes;
