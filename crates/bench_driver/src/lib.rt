// Loads for measuring: a dispatcher over each bank makes the calls that the bytes of a load stand for, and what was
// answered is told as one number.
#![tactic(auto)]

mod driving;
pub mod exported;
mod numbers;
