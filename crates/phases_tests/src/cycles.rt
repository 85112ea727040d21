// Whole cycles of a hub, call by call.
use crate::steps::{
    begin, count, detect, dispatch, entry, keep_output, keep_reporting, name, note, post, turn,
};
use banks::bank::Bank;
use banks::cell::Cell;
use chains::chain_bank::ChainBank;
use dispatcher::dispatcher::Dispatcher;
use dispatcher::entry::Slip;
use messages::note::Note;
use messages::refusal::Refusal;
use phases::phase::Report;
use rows::row_bank::RowBank;
use std::process::Abort;
use std::test::Fail;

// Cycle 0: two notes are posted, of intervals 1 and 2, and one is dispatched.
fn first_cycle<B: Bank<Item = Note>>(dispatcher: &mut Dispatcher<B>) -> Result<Report, Fail> {
    let report = begin(dispatcher)?;
    let at_work = detect(report, dispatcher)?;
    let first = Slip {
        receipt: 0,
        deadline: 1,
    };
    let second = Slip {
        receipt: 1,
        deadline: 2,
    };
    let at_work = post(at_work, dispatcher, note(1), Ok(first))?;
    let at_work = post(at_work, dispatcher, note(2), Ok(second))?;
    let at_work = post(
        at_work,
        dispatcher,
        note(0),
        Err(Refusal::IntervalOutOfRange),
    )?;
    let reacting = dispatch(at_work.react(), dispatcher, Ok(Some(entry(0, 1, 1))))?;
    let output = count(reacting.output(), 1)?;
    let output = keep_output(output, dispatcher, 2, Refusal::NotNextCycle)?;
    turn(output, dispatcher, 1, 0)
}

// Cycle 1: nothing is done, so the second note is late at the turn to 2, and the report phase of cycle 2 is not left
// before it is named.
fn late_note<B: Bank<Item = Note> + Drop>(rt: &impl Abort, bank: B) -> Result<(), Fail> {
    let mut dispatcher = Dispatcher::new(bank);
    assert_eq!(rt; dispatcher.open(0, 0), Ok(()));
    let report = first_cycle(&mut dispatcher)?;
    let report = name(report, &mut dispatcher, Ok(None))?;
    let output = detect(report, &mut dispatcher)?.react().output();
    let output = count(output, 0)?;
    let report = turn(output, &mut dispatcher, 2, 1)?;
    let report = keep_reporting(report, &mut dispatcher, Refusal::LateWaiting)?;
    let report = name(report, &mut dispatcher, Ok(Some(entry(1, 2, 2))))?;
    let last = detect(report, &mut dispatcher)?.react().output().finish();
    assert_eq!(rt; last, 2);
    Ok(())
}

#[test]
fn a_late_note_over_a_row_bank(rt: HostRuntime) -> Result<(), Fail> {
    late_note(&rt, RowBank::new(&mut [Cell::default(); 8], 4))
}

#[test]
fn a_late_note_over_a_chain_bank(rt: HostRuntime) -> Result<(), Fail> {
    late_note(&rt, ChainBank::new(&mut [Cell::default(); 8], 4))
}
