// Sets of small numbers, each kept as the bits of one word.
#![tactic(auto)]

pub mod mask;
