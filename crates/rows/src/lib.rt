// The row bank: each tray has a row of cells of its own in a table that the caller lends.
#![tactic(auto)]

mod head;
pub mod row_bank;
mod rows;
