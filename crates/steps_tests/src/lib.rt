// The reader of steps files on examples: every step, and every way in which a file can stop being lawful.
#![tactic(auto)]

#[cfg(test)]
mod headers;
#[cfg(test)]
mod lengths;
#[cfg(test)]
mod outcomes;
#[cfg(test)]
mod steps_read;
#[cfg(test)]
mod unmentioned_bytes;
