// The detect phase: used to post messages, and left for the react phase.
ghost use Rattle.std.specs.Prelude.{◌≡◌};
ghost use Rattle.dispatcher.specs.Answers.{entered};
ghost use Rattle.dispatcher.specs.Steps.{TakesWhenEmpty};
ghost use Rattle.dispatcher.specs.Views.{view};
ghost use Rattle.dispatcher.specs.declared.call.Call.TheVariants.{Post};
ghost use Rattle.dispatcher.specs.declared.event.Event.TheVariants.{Posted};
ghost use Rattle.phases.specs.Calls.{Called};

use crate::phase::{Detect, React, in_cycle};
use banks::bank::Bank;
use dispatcher::dispatcher::Dispatcher;
use dispatcher::entry::Slip;
use messages::message::Timed;
use messages::refusal::Refusal;

impl Detect {
    // Posts a message.
    pub fn post<B: Bank>(
        &self,
        dispatcher: &mut Dispatcher<B>,
        message: B::Item,
    ) -> Result<Slip, Refusal>
    where
        B::Item: Timed,
        ensures call { Called self.now.cycle dispatcher.old dispatcher.new (Post message) (λ p. Posted (entered p message)) result }
        ensures room { (view dispatcher.old).cycle ≡ self.now.cycle → TakesWhenEmpty dispatcher.old message result }
    {
        in_cycle(dispatcher, self.cycle)?;
        dispatcher.post(message)
    }

    // Goes on to the react phase, in which nothing has been dispatched yet.
    pub fn react(self) -> React
        ensures { (result.cycle ≡ self.cycle) × (result.dispatched ≡ 0) }
    {
        let Detect { cycle } = self;
        React {
            cycle,
            dispatched: 0,
        }
    }
}
