// The output phase: it tells what the react phase dispatched, and turns the dispatcher to the next cycle.
ghost use Rattle.std.specs.Prelude.{◌≡◌, ◌≤◌};
ghost use Rattle.dispatcher.specs.declared.call.Call.TheVariants.{Turn};
ghost use Rattle.dispatcher.specs.declared.event.Event.TheVariants.{Turned};
ghost use Rattle.phases.specs.Calls.{Called, Turns};

use crate::phase::{NextCycle, Output, Report, in_cycle};
use crate::refused::Refused;
use banks::bank::Bank;
use dispatcher::dispatcher::Dispatcher;
use messages::message::Timed;
use messages::refusal::Refusal;

impl Output {
    // How many entries were dispatched in this cycle's react phase.
    pub fn dispatched(&self) -> u32
        ensures { (result ≡ self.now.dispatched) × (result ≤ 4000000000) }
    {
        self.dispatched
    }

    // Turns the dispatcher to the timer's cycle.
    pub fn turn<B: Bank>(
        self,
        dispatcher: &mut Dispatcher<B>,
        cycle: u32,
    ) -> Result<NextCycle, Refused<Output>>
    where
        B::Item: Timed,
        ensures { Turns self dispatcher.old dispatcher.new cycle result }
    {
        // A phase may not be let go, so no `?` passes a refusal on while `self` is held.
        match self.turn_on(dispatcher, cycle) {
            Ok(late) => {
                let _ = self.finish();
                Ok(NextCycle {
                    late,
                    report: Report { cycle },
                })
            }
            Err(refusal) => Err(Refused {
                phase: self,
                refusal,
            }),
        }
    }

    // Turns the dispatcher, and answers how many entries became late.
    fn turn_on<B: Bank>(&self, dispatcher: &mut Dispatcher<B>, cycle: u32) -> Result<usize, Refusal>
    where
        B::Item: Timed,
        ensures { Called self.now.cycle dispatcher.old dispatcher.new (Turn cycle) (Turned cycle) result }
    {
        in_cycle(dispatcher, self.cycle)?;
        dispatcher.turn(cycle)
    }

    // Ends the driving, as where there is no next cycle to turn to, and answers its last cycle. A trait for this and for
    // the `finish` of a report phase would be no plainer: it has one method, and each caller would have to import it.
    pub fn finish(self) -> u32
        ensures { result ≡ self.cycle }
    {
        let Output {
            cycle: last,
            dispatched: _,
        } = self;
        last
    }
}
