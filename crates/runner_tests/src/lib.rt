// The runner on examples: what it lists, and what it leaves of its output.
#![tactic(auto)]

#[cfg(test)]
mod outputs;
pub mod worked_lessons;
