// The messages that the hub passes on, and the numbers by which any part of it refuses a call.
#![tactic(auto)]

pub mod message;
pub mod note;
pub mod pen;
pub mod refusal;
pub mod unknown;
