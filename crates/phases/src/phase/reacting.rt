// The react phase: used to dispatch entries and to ask for warnings, and left for the output phase. That a warning changes
// nothing is a clause of its own, `same`, since it holds with no condition.
ghost use Rattle.std.specs.Prelude.{◌≡◌};
ghost use Rattle.dispatcher.specs.declared.call.Call.TheVariants.{Dispatch, Warn};
ghost use Rattle.dispatcher.specs.declared.event.Event.TheVariants.{Dispatched, Warned};
ghost use Rattle.phases.specs.Calls.{Called, counted};

use crate::phase::{MOST_COUNTED, Output, React, in_cycle};
use banks::bank::Bank;
use dispatcher::dispatcher::Dispatcher;
use dispatcher::entry::{Entry, Warning};
use messages::message::Timed;
use messages::refusal::Refusal;

impl React {
    // Dispatches an entry, and counts it.
    pub fn dispatch<B: Bank>(
        &mut self,
        dispatcher: &mut Dispatcher<B>,
    ) -> Result<Option<Entry<B::Item>>, Refusal>
    where
        B::Item: Timed,
        ensures call { Called self.old.cycle dispatcher.old dispatcher.new Dispatch Dispatched result }
        ensures cycle { self.new.cycle ≡ self.old.cycle }
        ensures count { self.new.dispatched ≡ counted self.old.dispatched result }
    {
        in_cycle(dispatcher, self.cycle)?;
        let given = dispatcher.dispatch()?;
        if given.is_some() {
            self.dispatched = (self.dispatched + 1).min(MOST_COUNTED);
        }
        Ok(given)
    }

    // Whether so many services in this cycle and in each later one are too few for what is pending.
    pub fn warn<B: Bank>(
        &self,
        dispatcher: &mut Dispatcher<B>,
        services: u32,
    ) -> Result<Option<Warning>, Refusal>
    where
        B::Item: Timed,
        ensures call { Called self.now.cycle dispatcher.old dispatcher.new (Warn services) (Warned services) result }
        ensures same { dispatcher.new ≡ dispatcher.old }
    {
        in_cycle(dispatcher, self.cycle)?;
        dispatcher.warn(services)
    }

    // Goes on to the output phase.
    pub fn output(self) -> Output
        ensures { (result.cycle ≡ self.cycle) × (result.dispatched ≡ self.dispatched) }
    {
        let React { cycle, dispatched } = self;
        Output { cycle, dispatched }
    }
}
