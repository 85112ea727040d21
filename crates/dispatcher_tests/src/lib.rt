// The dispatcher on examples: the worked turns as a theorem, and lessons played on both banks.
#![tactic(auto)]

#[cfg(test)]
mod lessons;
#[cfg(test)]
mod players;
#[cfg(test)]
mod refusals;
pub mod worked_turns;
