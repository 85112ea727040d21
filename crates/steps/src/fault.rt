// Where bytes stop being lawful.
use messages::refusal::Refusal;
use thiserror::Error;

// What is wrong with a file, and the offset of the first byte that no lawful file has there.
// The offset of a file that breaks off is its length.
#[derive(Clone, Copy, Debug, PartialEq, Eq)]
pub struct Fault {
    pub refusal: Refusal,
    pub offset: usize,
}

// What is wrong with bytes that do not begin with a header, or with a record: how many of the first some header or
// record has too.
#[derive(Clone, Copy, Debug, PartialEq, Eq, Error)]
#[error("only the first {lawful_up_to} bytes are lawful")]
pub struct Unlawful {
    pub lawful_up_to: usize,
}
