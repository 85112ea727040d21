// The four phases of a cycle.
//
// A phase carries the cycle that it is of. None of them can be copied, and none can be let go: each is handed over to
// reach the next one.
ghost use Rattle.std.specs.Prelude.{◌≡◌, ◌≢◌, ◌≤◌, IfErr, OnOk};
ghost use Rattle.dispatcher.specs.Views.{view};
ghost use Rattle.messages.specs.declared.refusal.Refusal.TheVariants.{OutOfPhase};

use banks::bank::Bank;
use dispatcher::dispatcher::Dispatcher;
use messages::message::Timed;
use messages::refusal::Refusal;

pub mod detecting;
pub mod outputting;
pub mod reacting;
pub mod reporting;

// The most dispatches that are counted: a dispatch beyond still happens.
pub const MOST_COUNTED: u32 = 4_000_000_000;

// The late entries are named.
#[derive(Debug, PartialEq, Eq)]
pub struct Report {
    cycle: u32,
}

// Messages are posted.
#[derive(Debug, PartialEq, Eq)]
pub struct Detect {
    cycle: u32,
}

// Entries are dispatched, and warnings asked for.
#[derive(Debug, PartialEq, Eq)]
pub struct React {
    cycle: u32,
    // how many entries were dispatched; it stays at `MOST_COUNTED`
    dispatched: u32,
    ghost few: { dispatched ≤ 4000000000 },
}

// The reaction is given out, and the timer begins the next cycle. The count is that of the react phase; a type of its own
// for it would be no plainer.
#[derive(Debug, PartialEq, Eq)]
pub struct Output {
    cycle: u32,
    dispatched: u32,
    ghost few: { dispatched ≤ 4000000000 },
}

// What an accepted turn answers: how many entries became late, and the report phase of the new cycle.
#[derive(Debug, PartialEq, Eq)]
pub struct NextCycle {
    pub late: usize,
    pub report: Report,
}

// Refuses a phase of this cycle with a dispatcher in another one.
fn in_cycle<B: Bank>(dispatcher: &Dispatcher<B>, cycle: u32) -> Result<(), Refusal>
where
    B::Item: Timed,
    ensures ok { OnOk result ((view dispatcher.now).cycle ≡ cycle) }
    ensures err { IfErr result (λ refusal. (refusal ≡ OutOfPhase) × ((view dispatcher.now).cycle ≢ cycle)) }
{
    if dispatcher.cycle() == cycle {
        Ok(())
    } else {
        Err(Refusal::OutOfPhase)
    }
}
