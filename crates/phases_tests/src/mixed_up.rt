// Phases with a dispatcher that they are not of.
use crate::steps::{
    begin, count, detect, dispatch, keep, keep_output, keep_reporting, name, note, post,
};
use banks::bank::Bank;
use banks::cell::Cell;
use dispatcher::dispatcher::Dispatcher;
use messages::note::Note;
use messages::refusal::Refusal;
use phases::phase::Report;
use rows::row_bank::RowBank;
use std::process::Abort;
use std::test::Fail;

// Begins, and ends again at once.
fn beginning<B: Bank<Item = Note>>(dispatcher: &mut Dispatcher<B>) -> Result<(), Refusal> {
    let _ = Report::begin(dispatcher)?.finish();
    Ok(())
}

fn begun_once<B: Bank<Item = Note> + Drop>(rt: &impl Abort, bank: B) {
    let mut dispatcher = Dispatcher::new(bank);
    assert_eq!(rt; beginning(&mut dispatcher), Err(Refusal::Shut));
    assert_eq!(rt; dispatcher.open(7, 0), Ok(()));
    assert_eq!(rt; beginning(&mut dispatcher), Ok(()));
    assert_eq!(rt; beginning(&mut dispatcher), Err(Refusal::OutOfPhase));
}

#[test]
fn a_dispatcher_is_begun_once(rt: HostRuntime) {
    begun_once(&rt, RowBank::new(&mut [Cell::default(); 8], 4));
}

// A dispatcher that is turned behind the back of its phase of cycle 0: every call through a phase of that cycle is
// refused with 11, and nothing changes.
fn turned_behind<B: Bank<Item = Note> + Drop>(rt: &impl Abort, bank: B) -> Result<(), Fail> {
    let mut dispatcher = Dispatcher::new(bank);
    assert_eq!(rt; dispatcher.open(0, 0), Ok(()));
    assert!(rt; dispatcher.post(note(2)).is_ok());
    let report = begin(&mut dispatcher)?;
    let report = keep(report, dispatcher.turn(1), Ok(0))?;
    let report = name(report, &mut dispatcher, Err(Refusal::OutOfPhase))?;
    let report = keep_reporting(report, &mut dispatcher, Refusal::OutOfPhase)?;
    assert_eq!(rt; report.finish(), 0);
    let end = dispatcher.ask();
    assert_eq!(rt; end.cycle, 1);
    assert_eq!(rt; end.pending, 1);
    Ok(())
}

#[test]
fn a_phase_of_cycle_0_is_of_no_use_in_cycle_1(rt: HostRuntime) -> Result<(), Fail> {
    turned_behind(&rt, RowBank::new(&mut [Cell::default(); 8], 4))
}

// Two dispatchers in different cycles, and the phase of the first with the second.
fn two_dispatchers<A: Bank<Item = Note> + Drop, B: Bank<Item = Note> + Drop>(
    rt: &impl Abort,
    bank: A,
    other_bank: B,
) -> Result<(), Fail> {
    let mut first = Dispatcher::new(bank);
    let mut second = Dispatcher::new(other_bank);
    assert_eq!(rt; first.open(0, 0), Ok(()));
    assert_eq!(rt; second.open(5, 0), Ok(()));
    let report = begin(&mut first)?;
    let report = name(report, &mut second, Err(Refusal::OutOfPhase))?;
    let at_work = detect(report, &mut first)?;
    let at_work = post(at_work, &mut second, note(1), Err(Refusal::OutOfPhase))?;
    let reacting = dispatch(at_work.react(), &mut second, Err(Refusal::OutOfPhase))?;
    let output = count(reacting.output(), 0)?;
    let output = keep_output(output, &mut second, 6, Refusal::OutOfPhase)?;
    assert_eq!(rt; output.finish(), 0);
    assert_eq!(rt; second.ask().cycle, 5);
    Ok(())
}

#[test]
fn a_phase_refuses_a_dispatcher_in_another_cycle(rt: HostRuntime) -> Result<(), Fail> {
    two_dispatchers(
        &rt,
        RowBank::new(&mut [Cell::default(); 8], 4),
        RowBank::new(&mut [Cell::default(); 8], 4),
    )
}

// A report phase of cycle 0 with a dispatcher that is shut, which is in cycle 0 too.
fn shut_dispatcher<A: Bank<Item = Note> + Drop, B: Bank<Item = Note> + Drop>(
    rt: &impl Abort,
    bank: A,
    other_bank: B,
) -> Result<(), Fail> {
    let mut open = Dispatcher::new(bank);
    let mut shut = Dispatcher::new(other_bank);
    assert_eq!(rt; open.open(0, 0), Ok(()));
    let report = begin(&mut open)?;
    let report = name(report, &mut shut, Err(Refusal::Shut))?;
    let report = keep_reporting(report, &mut shut, Refusal::Shut)?;
    assert_eq!(rt; report.finish(), 0);
    Ok(())
}

#[test]
fn a_phase_refuses_a_shut_dispatcher(rt: HostRuntime) -> Result<(), Fail> {
    shut_dispatcher(
        &rt,
        RowBank::new(&mut [Cell::default(); 8], 4),
        RowBank::new(&mut [Cell::default(); 8], 4),
    )
}
