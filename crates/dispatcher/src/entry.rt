// What the calls of a dispatcher answer.
ghost use Rattle.std.specs.Prelude.{◌≡◌};
ghost use Rattle.dispatcher.specs.Answers.{entered};

// An accepted post: its receipt, its message, and the cycle by which it has to be dispatched.
#[derive(Clone, Copy, Debug, PartialEq, Eq)]
pub struct Entry<M> {
    pub receipt: u32,
    pub message: M,
    pub deadline: u32,
}

// What an accepted post is answered: its receipt and its deadline cycle.
#[derive(Clone, Copy, Debug, PartialEq, Eq)]
pub struct Slip {
    pub receipt: u32,
    pub deadline: u32,
}

impl Slip {
    // The entry of the message that was posted.
    pub fn entry<M>(self, message: M) -> Entry<M>
        ensures { result ≡ entered self message }
    {
        Entry {
            receipt: self.receipt,
            message,
            deadline: self.deadline,
        }
    }
}

// What a warning names: within so many cycles, so many entries are due, which is more than can be served.
#[derive(Clone, Copy, Debug, PartialEq, Eq)]
pub struct Warning {
    pub ahead: usize,
    pub load: usize,
}

// How things stand: the cycle, how many posts were accepted, how many entries were dispatched and how many became late,
// and how many are pending and wait to be named.
#[derive(Clone, Copy, Debug, PartialEq, Eq)]
pub struct Figures {
    pub cycle: u32,
    pub accepted: usize,
    pub dispatched: usize,
    pub late: usize,
    pub pending: usize,
    pub waiting: usize,
}
