// The lesson runner: from the bytes of a steps file to the bytes of its listing.
#![tactic(auto)]

mod calls;
pub mod laws;
mod lines;
pub mod listing;
mod text;
