// Steps files: the bytes by which a lesson's steps are kept, read from start to end.
// Nothing here allocates, copies the file or changes it.
#![tactic(auto)]

pub mod fault;
pub mod header;
pub mod posted;
mod ranges;
pub mod records;
pub mod step;
pub mod steps_file;
pub mod text;
