// The report phase: begun, used to name the late entries, and left or finished.
ghost use Rattle.std.specs.Prelude.{◌≡◌, IfOk};
ghost use Rattle.dispatcher.specs.Steps.{Fails};
ghost use Rattle.dispatcher.specs.WholeRuns.{LawfulCall};
ghost use Rattle.dispatcher.specs.Answers.{answered};
ghost use Rattle.dispatcher.specs.declared.call.Call.TheVariants.{Begin, Name};
ghost use Rattle.dispatcher.specs.declared.event.Event.TheVariants.{Begun, Named};
ghost use Rattle.dispatcher.specs.Views.{view};
ghost use Rattle.phases.specs.Calls.{Called, LeavesReport, leaving};

use crate::phase::{Detect, Report, in_cycle};
use crate::refused::Refused;
use banks::bank::Bank;
use dispatcher::dispatcher::Dispatcher;
use dispatcher::entry::Entry;
use messages::message::Timed;
use messages::refusal::Refusal;

impl Report {
    // Begins to drive a dispatcher, which keeps that it has begun: its call `begin`, with that call's clauses.
    pub fn begin<B: Bank>(dispatcher: &mut Dispatcher<B>) -> Result<Report, Refusal>
    where
        B::Item: Timed,
        ensures lawful { LawfulCall dispatcher.old dispatcher.new Begin (answered Begin (λ _. Begun) result) }
        ensures same { Fails result → dispatcher.new ≡ dispatcher.old }
        ensures phase { IfOk result (λ p. p.cycle ≡ (view dispatcher.new).cycle) }
    {
        dispatcher.begin()?;
        Ok(Report {
            cycle: dispatcher.cycle(),
        })
    }

    // Names the first of the late entries that wait.
    pub fn name<B: Bank>(
        &self,
        dispatcher: &mut Dispatcher<B>,
    ) -> Result<Option<Entry<B::Item>>, Refusal>
    where
        B::Item: Timed,
        ensures { Called self.now.cycle dispatcher.old dispatcher.new Name Named result }
    {
        in_cycle(dispatcher, self.cycle)?;
        dispatcher.name()
    }

    // Goes on to the detect phase, once no late entry waits.
    pub fn detect<B: Bank>(self, dispatcher: &mut Dispatcher<B>) -> Result<Detect, Refused<Report>>
    where
        B::Item: Timed,
        ensures { LeavesReport self dispatcher.old dispatcher.new result }
    {
        // A phase may not be let go, so no `?` passes a refusal on while `self` is held.
        match may_be_left(dispatcher, self.cycle) {
            Ok(()) => {
                let Report { cycle } = self;
                Ok(Detect { cycle })
            }
            Err(refusal) => Err(Refused {
                phase: self,
                refusal,
            }),
        }
    }

    // Ends the driving, and answers its last cycle. The dispatcher keeps that it has begun, so it gives no other phase.
    // `Output` has such a method too, and says why they are two.
    pub fn finish(self) -> u32
        ensures { result ≡ self.cycle }
    {
        let Report { cycle: last } = self;
        last
    }
}

// Refuses to leave the report phase of a cycle while a late entry waits, before that with a shut dispatcher, and before
// all else with a dispatcher in another cycle.
fn may_be_left<B: Bank>(dispatcher: &mut Dispatcher<B>, cycle: u32) -> Result<(), Refusal>
where
    B::Item: Timed,
    ensures { LeavesReport (record { cycle = cycle }) dispatcher.old dispatcher.new (leaving (record { cycle = cycle }) result) }
{
    let waiting = dispatcher.ask().waiting;
    in_cycle(dispatcher, cycle)?;
    if !dispatcher.is_open() {
        return Err(Refusal::Shut);
    }
    if waiting > 0 {
        return Err(Refusal::LateWaiting);
    }
    Ok(())
}
