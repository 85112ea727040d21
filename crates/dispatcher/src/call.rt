// The calls of a dispatcher as values.

// A call, with what it is told.
#[derive(Clone, Copy, Debug, PartialEq, Eq)]
pub enum Call<M> {
    // the first cycle and the first receipt
    Open(u32, u32),
    Post(M),
    Dispatch,
    // the timer's cycle
    Turn(u32),
    Name,
    // the services in this cycle and in each later one
    Warn(u32),
    // begins a cycle
    Begin,
    Ask,
}
