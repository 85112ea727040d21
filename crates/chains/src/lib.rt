// The chain bank: the cells of each tray are linked through the whole of a table that the caller lends.
#![tactic(auto)]

pub mod chain_bank;
mod link;
mod links;
