// What a refused step from phase to phase gives back.
use messages::refusal::Refusal;

// The phase that could not be left, the same as it was, and why.
#[derive(Debug, PartialEq, Eq)]
pub struct Refused<P> {
    pub phase: P,
    pub refusal: Refusal,
}
