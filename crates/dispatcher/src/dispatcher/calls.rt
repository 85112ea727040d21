// The calls of a dispatcher. Each says in `lawful` what it answers and leaves, in the terms of the machine that the
// dispatcher showed, and in `same`, whatever it showed, that a refused call leaves the very value it was.
ghost use Rattle.std.specs.Prelude.{◌≡◌, ◌+◌, ◌%◌, ◌≤◌, Some, IfSome, option_map};
ghost use Rattle.banks.specs.Trays.{Takes};
ghost use Rattle.dispatcher.specs.Search.{FirstHeld};
ghost use Rattle.dispatcher.specs.Steps.{Fails, Foresees, Starts, TakesWhenEmpty};
ghost use Rattle.dispatcher.specs.Shown.{cell_of};
ghost use Rattle.dispatcher.specs.Views.{view, waiting_in};
ghost use Rattle.dispatcher.specs.WholeRuns.{LawfulCall};
ghost use Rattle.dispatcher.specs.declared.call.Call.TheVariants.{Ask, Begin, Dispatch, Name, Open, Post, Turn, Warn};
ghost use Rattle.dispatcher.specs.declared.event.Event.TheVariants.{Asked, Begun, Dispatched, Named, Opened, Posted, Turned, Warned};
ghost use Rattle.dispatcher.specs.Answers.{answered, entered};

use crate::dispatcher::Dispatcher;
use crate::entry::{Entry, Figures, Slip, Warning};
use crate::ring::Ring;
use banks::bank::Bank;
use messages::message::Timed;
use messages::refusal::Refusal;

// The largest cycle and the largest receipt.
pub const LIMIT: u32 = 4_000_000_000;

// The most services that a warning may be told.
const MOST_SERVICES: u32 = 1_000;

impl<B: Bank> Dispatcher<B>
where
    B::Item: Timed,
{
    // A dispatcher that is shut, over any bank.
    pub fn new(bank: B) -> Self
        ensures { Starts bank result }
    {
        Dispatcher {
            bank,
            ring: None,
            begun: false,
            cycle: 0,
            receipt: 0,
            accepted: 0,
            dispatched: 0,
            late: 0,
        }
    }

    pub fn open(&mut self, cycle: u32, receipt: u32) -> Result<(), Refusal>
        ensures lawful { LawfulCall self.old self.new (Open cycle receipt) (answered (Open cycle receipt) (λ _. Opened cycle receipt) result) }
        ensures same { Fails result → self.new ≡ self.old }
    {
        if self.ring.is_some() {
            return Err(Refusal::AlreadyOpen);
        }
        if cycle > LIMIT || receipt > LIMIT {
            return Err(Refusal::StartTooHigh);
        }
        let trays = self.bank.tray_count();
        if trays < 2 || self.bank.total() > 0 {
            return Err(Refusal::UnfitBank);
        }
        self.ring = Some(Ring::of(trays));
        self.cycle = cycle;
        self.receipt = receipt;
        Ok(())
    }

    pub fn post(&mut self, message: B::Item) -> Result<Slip, Refusal>
        ensures lawful { LawfulCall self.old self.new (Post message) (answered (Post message) (λ p. Posted (entered p message)) result) }
        ensures same { Fails result → self.new ≡ self.old }
        ensures room { TakesWhenEmpty self.old message result }
    {
        let ring = self.ring.ok_or(Refusal::Shut)?;
        let interval = message.interval();
        if interval == 0 || usize::from(interval) > ring.span() {
            return Err(Refusal::IntervalOutOfRange);
        }
        if self.receipt >= LIMIT {
            return Err(Refusal::ReceiptsUsedUp);
        }
        let receipt = self.receipt;
        let deadline = self.cycle + u32::from(interval);
        self.bank.put(ring.tray_of(deadline), receipt, message)?;
        self.receipt = receipt + 1;
        self.accepted = self.accepted.saturating_add(1);
        Ok(Slip { receipt, deadline })
    }

    // How many cycles ahead the first tray lies that holds a cell.
    fn soonest(&self, ring: Ring) -> Option<usize>
        ensures { FirstHeld (view self.now).trays ring.span (view self.now).cycle result }
    {
        // a `find` over these cycles would want a sum that fits for every number, not only for those up to the span
        for ahead in 1..=ring.span() {
            if self.bank.count(ring.tray_of(self.cycle + ahead as u32)) > 0 {
                return Some(ahead);
            }
        }
        None
    }

    // The pending entry of the earliest deadline, and of these the one that was posted first.
    pub fn dispatch(&mut self) -> Result<Option<Entry<B::Item>>, Refusal>
        ensures lawful { LawfulCall self.old self.new Dispatch (answered Dispatch Dispatched result) }
        ensures same { Fails result → self.new ≡ self.old }
    {
        let ring = self.ring.ok_or(Refusal::Shut)?;
        let Some(ahead) = self.soonest(ring) else {
            return Ok(None);
        };
        self.dispatched = self.dispatched.saturating_add(1);
        let deadline = self.cycle + ahead as u32;
        Ok(take_due(&mut self.bank, ring, deadline))
    }

    // The first of the late entries that wait.
    pub fn name(&mut self) -> Result<Option<Entry<B::Item>>, Refusal>
        ensures lawful { LawfulCall self.old self.new Name (answered Name Named result) }
        ensures same { Fails result → self.new ≡ self.old }
    {
        let ring = self.ring.ok_or(Refusal::Shut)?;
        Ok(take_due(&mut self.bank, ring, self.cycle))
    }

    // Begins the next cycle, and answers how many entries are late now. No cell is moved: the tray of the new cycle is
    // that of the late entries.
    pub fn turn(&mut self, cycle: u32) -> Result<usize, Refusal>
        ensures lawful { LawfulCall self.old self.new (Turn cycle) (answered (Turn cycle) (Turned cycle) result) }
        ensures same { Fails result → self.new ≡ self.old }
    {
        let ring = self.ring.ok_or(Refusal::Shut)?;
        if self.bank.count(ring.tray_of(self.cycle)) > 0 {
            return Err(Refusal::LateWaiting);
        }
        if cycle != self.cycle + 1 {
            return Err(Refusal::NotNextCycle);
        }
        if cycle > LIMIT {
            return Err(Refusal::CyclesUsedUp);
        }
        let late = self.bank.count(ring.tray_of(cycle));
        self.cycle = cycle;
        self.late = self.late.saturating_add(late);
        Ok(late)
    }

    // The first of the cycles ahead with more entries due by it than so many services in each cycle can serve.
    fn foresee(&self, ring: Ring, services: usize) -> Option<Warning>
        requires ring { self.now.ring ≡ Some ring }
        requires services { services ≤ 1000 }
        ensures { Foresees self.now services result }
    {
        // what is due so far is looked at in each cycle, so this is no sum over a chain
        let mut due: usize = 0;
        for ahead in 1..=ring.span() {
            let tray = ring.tray_of(self.cycle + ahead as u32);
            due = due.saturating_add(self.bank.count(tray));
            if due > services * ahead {
                return Some(Warning { ahead, load: due });
            }
        }
        None
    }

    // Whether so many services in this cycle and in each later one are too few for what is pending.
    pub fn warn(&mut self, services: u32) -> Result<Option<Warning>, Refusal>
        ensures lawful { LawfulCall self.old self.new (Warn services) (answered (Warn services) (Warned services) result) }
        ensures same { self.new ≡ self.old }
    {
        let ring = self.ring.ok_or(Refusal::Shut)?;
        if services > MOST_SERVICES {
            return Err(Refusal::TooManyServices);
        }
        Ok(self.foresee(ring, services as usize))
    }

    // Begins a cycle. It is kept that this was done, and nothing else changes.
    pub fn begin(&mut self) -> Result<(), Refusal>
        ensures lawful { LawfulCall self.old self.new Begin (answered Begin (λ _. Begun) result) }
        ensures same { Fails result → self.new ≡ self.old }
    {
        self.ring.ok_or(Refusal::Shut)?;
        if self.begun {
            return Err(Refusal::OutOfPhase);
        }
        self.begun = true;
        Ok(())
    }

    // How things stand. Nothing changes.
    pub fn ask(&mut self) -> Figures
        ensures lawful { LawfulCall self.old self.new Ask (Asked result) }
        ensures same { self.new ≡ self.old }
    {
        Figures {
            cycle: self.cycle,
            accepted: self.accepted,
            dispatched: self.dispatched,
            late: self.late,
            pending: self
                .accepted
                .saturating_sub(self.dispatched)
                .saturating_sub(self.late),
            waiting: self.waiting(),
        }
    }

    // How many late entries wait.
    fn waiting(&self) -> usize
        ensures { result ≡ waiting_in (view self.now) }
    {
        self.ring
            .map_or(0, |ring| self.bank.count(ring.tray_of(self.cycle)))
    }
}

// Takes the first entry of a deadline out of its tray, if there is one; `Takes` is told what the bank's own trait tells
// it.
fn take_due<B: Bank>(bank: &mut B, ring: Ring, deadline: u32) -> Option<Entry<B::Item>>
    ensures takes { Takes B.Trays.trays B.Trays.tray_limit B.Trays.total_limit bank.old bank.new (deadline % (ring.span + 1)) (option_map cell_of result) }
    ensures due { IfSome result (λ entry. entry.deadline ≡ deadline) }
{
    let cell = bank.take(ring.tray_of(deadline))?;
    Some(Entry {
        receipt: cell.receipt,
        message: cell.message,
        deadline,
    })
}
