// The phases of a hub's cycle as values, each used up to reach the next, so that no call can be made out of turn.
#![tactic(auto)]

pub mod drive;
pub mod phase;
pub mod refused;
pub mod round;
pub mod stop;
