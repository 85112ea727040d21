// Both banks on examples, through functions that know a bank by its interface alone.
#![tactic(auto)]

#[cfg(test)]
mod drills;
pub mod given_back;
#[cfg(test)]
mod made_over;
#[cfg(test)]
mod used;
