// A call together with its answer.
ghost use Rattle.std.specs.Prelude.{◌≡◌, MatchResult};
ghost use Rattle.dispatcher.specs.declared.event.Event.TheVariants.{Refused};

use crate::call::Call;
use crate::entry::{Entry, Figures, Warning};
use messages::refusal::Refusal;

// What happened at one call. A run's events, one after another, are its history.
#[derive(Clone, Copy, Debug, PartialEq, Eq)]
pub enum Event<M> {
    // any call, and why it was refused
    Refused(Call<M>, Refusal),
    // the first cycle and the first receipt
    Opened(u32, u32),
    // a post, with the receipt and the deadline that it got
    Posted(Entry<M>),
    Dispatched(Option<Entry<M>>),
    // the cycle, and how many entries became late
    Turned(u32, usize),
    Named(Option<Entry<M>>),
    // the services, and what was named
    Warned(u32, Option<Warning>),
    Begun,
    Asked(Figures),
}

impl<M: Copy> Event<M> {
    // A call with its result: what `accepted` makes of the answer, or the call with why it was refused.
    pub fn of<T, F: FnOnce(T) -> Event<M>>(
        call: Call<M>,
        res: Result<T, Refusal>,
        accepted: F,
    ) -> Event<M>
        requires { F.IsAlwaysCallable accepted }
        ensures { MatchResult res (λ answer. F.post accepted answer result) (λ refusal. result ≡ Refused call refusal) }
    {
        match res {
            Ok(answer) => accepted(answer),
            Err(refusal) => Event::Refused(call, refusal),
        }
    }
}
