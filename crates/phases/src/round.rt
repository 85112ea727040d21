// What the driver of a hub is told for one cycle.

// The messages to post, in this order; the services that a warning is asked for; how often to dispatch; and the cycle
// that the timer begins then.
#[derive(Clone, Copy, Debug, PartialEq, Eq)]
pub struct Round<'a, M> {
    pub messages: &'a [M],
    pub services: u32,
    pub dispatches: u32,
    pub cycle: u32,
}
