// What is wrong with a number that names nothing.
use thiserror::Error;

// A number that no value of the type has.
#[derive(Clone, Copy, Debug, PartialEq, Eq, Error)]
#[error("no value has the number {0}")]
pub struct UnknownNumber(pub u8);
