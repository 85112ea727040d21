// The main loop of a hub: cycles driven through their phases.
ghost use Rattle.std.specs.Prelude.{◌≡◌, ◌∷◌, map, replicate};
ghost use Rattle.dispatcher.specs.declared.call.Call.TheVariants.{Dispatch, Name, Post, Warn};
ghost use Rattle.phases.specs.Rounds.{CallsThrough, Drives, DrivesRound};

use crate::phase::{Detect, NextCycle, Output, Report};
use crate::round::Round;
use crate::stop::{Held, Stop};
use banks::bank::Bank;
use dispatcher::dispatcher::Dispatcher;
use messages::message::Timed;

// Names so many late entries.
fn name_times<B: Bank>(report: &Report, dispatcher: &mut Dispatcher<B>, times: usize)
where
    B::Item: Timed,
    ensures { CallsThrough report.now.cycle 0 dispatcher.old dispatcher.new (replicate times Name) }
{
    for _ in 0..times {
        let _ = report.name(dispatcher);
    }
}

fn post_all<B: Bank>(detect: &Detect, dispatcher: &mut Dispatcher<B>, messages: &[B::Item])
where
    B::Item: Timed,
    ensures { CallsThrough detect.now.cycle 0 dispatcher.old dispatcher.new (map Post messages.now) }
{
    for message in messages {
        let _ = detect.post(dispatcher, *message);
    }
}

// Asks for the round's warning, and dispatches as often as it says.
fn react_to<B: Bank>(
    detect: Detect,
    dispatcher: &mut Dispatcher<B>,
    round: Round<B::Item>,
) -> Output
where
    B::Item: Timed,
    ensures calls { CallsThrough detect.cycle result.dispatched dispatcher.old dispatcher.new (Warn round.entry.services ∷ replicate round.entry.dispatches Dispatch) }
    ensures phase { result.cycle ≡ detect.cycle }
{
    let mut react = detect.react();
    let _ = react.warn(dispatcher, round.services);
    for _ in 0..round.dispatches {
        let _ = react.dispatch(dispatcher);
    }
    react.output()
}

// Drives one cycle from its report phase on: names all that is late, posts, warns, dispatches, and turns to the timer's
// cycle. Answers the next report phase, or the phase that could not be left.
pub fn drive_round<B: Bank>(
    report: Report,
    dispatcher: &mut Dispatcher<B>,
    round: Round<B::Item>,
) -> Result<Report, Held>
where
    B::Item: Timed,
    ensures { DrivesRound report dispatcher.old dispatcher.new round.entry result }
{
    let waiting = dispatcher.ask().waiting;
    name_times(&report, dispatcher, waiting);
    let detect = report.detect(dispatcher)?;
    post_all(&detect, dispatcher, round.messages);
    let output = react_to(detect, dispatcher, round);
    let NextCycle { late: _, report } = output.turn(dispatcher, round.cycle)?;
    Ok(report)
}

// Drives a cycle for each round, until one stops.
pub fn drive<B: Bank>(
    mut report: Report,
    dispatcher: &mut Dispatcher<B>,
    rounds: &[Round<B::Item>],
) -> Result<Report, Stop>
where
    B::Item: Timed,
    ensures { Drives report dispatcher.old dispatcher.new rounds.now result }
{
    for (round, inputs) in rounds.iter().enumerate() {
        report = drive_round(report, dispatcher, *inputs).map_err(|held| Stop { round, held })?;
    }
    Ok(report)
}
