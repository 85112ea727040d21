// The phases of a cycle on examples.
#![tactic(auto)]

#[cfg(test)]
mod cycles;
#[cfg(test)]
mod driven;
#[cfg(test)]
mod mixed_up;
#[cfg(test)]
mod steps;
