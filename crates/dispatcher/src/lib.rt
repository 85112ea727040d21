// The dispatcher: its rules as a machine, its calls over any bank, and the laws that every run obeys.
#![tactic(auto)]

pub mod call;
pub mod dispatcher;
pub mod entry;
pub mod event;
pub mod laws;
mod ring;
