// Calls one after another, from a newly made dispatcher on.
ghost use Rattle.dispatcher.specs.Answers.{answered};
ghost use Rattle.dispatcher.specs.WholeRuns.{AccountedRun, LawfulCall, WholeRun};
ghost use Rattle.std.specs.Prelude.{IfOk};

use crate::call::Call;
use crate::dispatcher::Dispatcher;
use crate::event::Event;
use banks::bank::Bank;
use messages::message::Timed;
use messages::refusal::Refusal;
use std::alloc::{AllocError, Global};

impl<B: Bank> Dispatcher<B>
where
    B::Item: Timed,
{
    // Makes a call that is given as a value, and gives it back with its answer.
    pub fn perform(&mut self, call: Call<B::Item>) -> Event<B::Item>
        ensures { LawfulCall self.old self.new call result }
    {
        Event::of(call, self.attempt(call), |event| event)
    }

    // Makes a call, and tells what happened if it is accepted. Calls are values and not closures, since a history is made
    // of them.
    fn attempt(&mut self, call: Call<B::Item>) -> Result<Event<B::Item>, Refusal>
        ensures { LawfulCall self.old self.new call (answered call (λ event. event) result) }
    {
        match call {
            Call::Open(cycle, receipt) => {
                self.open(cycle, receipt)?;
                Ok(Event::Opened(cycle, receipt))
            }
            Call::Post(message) => Ok(Event::Posted(self.post(message)?.entry(message))),
            Call::Dispatch => Ok(Event::Dispatched(self.dispatch()?)),
            Call::Turn(cycle) => Ok(Event::Turned(cycle, self.turn(cycle)?)),
            Call::Name => Ok(Event::Named(self.name()?)),
            Call::Warn(services) => Ok(Event::Warned(services, self.warn(services)?)),
            Call::Begin => {
                self.begin()?;
                Ok(Event::Begun)
            }
            Call::Ask => Ok(Event::Asked(self.ask())),
        }
    }
}

// Makes these calls, in order, on a new dispatcher over the bank, and gives the dispatcher back with what happened.
pub fn run<B: Bank + Drop>(
    heap: Global,
    bank: B,
    calls: &[Call<B::Item>],
) -> Result<(Dispatcher<B>, Vec<Event<B::Item>>), AllocError>
where
    B::Item: Timed,
    ensures law { IfOk result (λ out. WholeRun out.0 calls.now out.1.items) }
    ensures account { IfOk result (λ out. AccountedRun bank out.0 calls.now out.1.items) }
{
    let mut dispatcher = Dispatcher::new(bank);
    let mut events = Vec::new(heap);
    for call in calls {
        events.push(dispatcher.perform(*call))?;
    }
    Ok((dispatcher, events))
}
