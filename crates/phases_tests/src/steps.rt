// One call through a phase each, with what it has to answer.
use banks::bank::Bank;
use dispatcher::dispatcher::Dispatcher;
use dispatcher::entry::{Entry, Slip};
use messages::note::{Note, NoteKind};
use messages::refusal::Refusal;
use phases::phase::{Detect, NextCycle, Output, React, Report};
use phases::refused::Refused;
use std::fmt::Debug;
use std::test::Fail;

// A phase cannot be let go, so where a check fails the driving is ended first.
trait End {
    fn end(self);
}

impl End for Report {
    fn end(self) {
        let _ = self.finish();
    }
}

impl End for Detect {
    fn end(self) {
        self.react().end();
    }
}

impl End for React {
    fn end(self) {
        self.output().end();
    }
}

impl End for Output {
    fn end(self) {
        let _ = self.finish();
    }
}

impl End for NextCycle {
    fn end(self) {
        let NextCycle { late: _, report } = self;
        report.end();
    }
}

// A tilt note of pad 7. The tests of the dispatcher make their own: a crate for two small functions would be
// no plainer.
pub(crate) fn note(interval: u8) -> Note {
    Note {
        pad: 7,
        kind: NoteKind::Tilt,
        interval,
        payload: 0,
    }
}

// Such a note as an entry.
pub(crate) fn entry(receipt: u32, interval: u8, deadline: u32) -> Entry<Note> {
    Entry {
        receipt,
        message: note(interval),
        deadline,
    }
}

// The phase, if a value is the one that is wanted.
pub(crate) fn keep<P: End, T: PartialEq + Debug + Drop>(
    phase: P,
    found: T,
    wanted: T,
) -> Result<P, Fail> {
    if found == wanted {
        Ok(phase)
    } else {
        phase.end();
        Err(Fail::new(format_args!("{found:?} in place of {wanted:?}")))
    }
}

// The phase that comes next.
fn leave<P: End, Q>(step: Result<Q, Refused<P>>) -> Result<Q, Fail> {
    step.map_err(|Refused { phase, refusal }| {
        phase.end();
        Fail::new(format_args!("the phase is not left: {refusal:?}"))
    })
}

// The phase that could not be left.
fn stay<P: End, Q: End>(step: Result<Q, Refused<P>>, why: Refusal) -> Result<P, Fail> {
    match step {
        Ok(next) => {
            next.end();
            Err(Fail::new("the phase is left"))
        }
        Err(Refused { phase, refusal }) => keep(phase, refusal, why),
    }
}

pub(crate) fn begin<B: Bank<Item = Note>>(dispatcher: &mut Dispatcher<B>) -> Result<Report, Fail> {
    Report::begin(dispatcher).map_err(|_| Fail::new("the beginning is refused"))
}

pub(crate) fn name<B: Bank<Item = Note>>(
    report: Report,
    dispatcher: &mut Dispatcher<B>,
    answer: Result<Option<Entry<Note>>, Refusal>,
) -> Result<Report, Fail> {
    let named = report.name(dispatcher);
    keep(report, named, answer)
}

pub(crate) fn detect<B: Bank<Item = Note>>(
    report: Report,
    dispatcher: &mut Dispatcher<B>,
) -> Result<Detect, Fail> {
    leave(report.detect(dispatcher))
}

// The report phase cannot be left.
pub(crate) fn keep_reporting<B: Bank<Item = Note>>(
    report: Report,
    dispatcher: &mut Dispatcher<B>,
    why: Refusal,
) -> Result<Report, Fail> {
    stay(report.detect(dispatcher), why)
}

pub(crate) fn post<B: Bank<Item = Note>>(
    detect: Detect,
    dispatcher: &mut Dispatcher<B>,
    message: Note,
    answer: Result<Slip, Refusal>,
) -> Result<Detect, Fail> {
    let posted = detect.post(dispatcher, message);
    keep(detect, posted, answer)
}

pub(crate) fn dispatch<B: Bank<Item = Note>>(
    mut react: React,
    dispatcher: &mut Dispatcher<B>,
    answer: Result<Option<Entry<Note>>, Refusal>,
) -> Result<React, Fail> {
    let dispatched = react.dispatch(dispatcher);
    keep(react, dispatched, answer)
}

// What the output phase counted.
pub(crate) fn count(output: Output, dispatched: u32) -> Result<Output, Fail> {
    let counted = output.dispatched();
    keep(output, counted, dispatched)
}

pub(crate) fn turn<B: Bank<Item = Note>>(
    output: Output,
    dispatcher: &mut Dispatcher<B>,
    cycle: u32,
    made_late: usize,
) -> Result<Report, Fail> {
    let NextCycle { late, report } = leave(output.turn(dispatcher, cycle))?;
    keep(report, late, made_late)
}

// The output phase cannot be left.
pub(crate) fn keep_output<B: Bank<Item = Note>>(
    output: Output,
    dispatcher: &mut Dispatcher<B>,
    cycle: u32,
    why: Refusal,
) -> Result<Output, Fail> {
    stay(output.turn(dispatcher, cycle), why)
}
