// What a bank of trays is: the interface that the dispatcher knows a bank by.
#![tactic(auto)]

pub mod bank;
pub mod cell;
pub mod first_put;
pub mod serving;
