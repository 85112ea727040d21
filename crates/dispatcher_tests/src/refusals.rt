// Every refusal that a dispatcher can give, but that of a full tray, which is among the lessons.
use crate::players::{entry, note, play};
use banks::bank::Bank;
use banks::cell::Cell;
use dispatcher::call::Call;
use dispatcher::event::Event;
use messages::note::Note;
use messages::refusal::Refusal;
use rows::row_bank::RowBank;
use std::process::Abort;
use std::test::Fail;

// The largest cycle and the largest receipt, written out here too, so that a slip in those of the dispatcher shows.
const LIMIT: u32 = 4_000_000_000;

// Plays the calls over a row bank of eight cells and so many trays.
fn play_over_rows(
    rt: &(impl Abort + AllocGlobal),
    trays: usize,
    calls: &[Call<Note>],
    expected: &[Event<Note>],
) -> Result<(), Fail> {
    let mut table = [Cell::default(); 8];
    play(rt, RowBank::new(&mut table, trays), calls, expected)
}

#[test]
fn a_shut_dispatcher_refuses_all_but_opening_and_the_question(rt: HostRuntime) -> Result<(), Fail> {
    let calls = [
        Call::Post(note(1)),
        Call::Dispatch,
        Call::Turn(1),
        Call::Name,
        Call::Warn(1_001),
        Call::Begin,
    ];
    let expected = calls.map(|call| Event::Refused(call, Refusal::Shut));
    play_over_rows(&rt, 4, &calls, &expected)
}

#[test]
fn an_opening_is_refused_for_its_numbers_and_a_second_time(rt: HostRuntime) -> Result<(), Fail> {
    let calls = [
        Call::Open(LIMIT + 1, 0),
        Call::Open(0, LIMIT + 1),
        Call::Open(LIMIT, LIMIT),
        Call::Open(LIMIT + 1, 0),
        Call::Post(note(4)),
        Call::Post(note(3)),
        Call::Turn(0),
        Call::Turn(LIMIT + 1),
        Call::Warn(1_000),
        Call::Warn(1_001),
        Call::Begin,
        Call::Begin,
    ];
    let expected = [
        Event::Refused(calls[0], Refusal::StartTooHigh),
        Event::Refused(calls[1], Refusal::StartTooHigh),
        Event::Opened(LIMIT, LIMIT),
        Event::Refused(calls[3], Refusal::AlreadyOpen),
        Event::Refused(calls[4], Refusal::IntervalOutOfRange),
        Event::Refused(calls[5], Refusal::ReceiptsUsedUp),
        Event::Refused(calls[6], Refusal::NotNextCycle),
        Event::Refused(calls[7], Refusal::CyclesUsedUp),
        Event::Warned(1_000, None),
        Event::Refused(calls[9], Refusal::TooManyServices),
        Event::Begun,
        Event::Refused(calls[11], Refusal::OutOfPhase),
    ];
    play_over_rows(&rt, 4, &calls, &expected)
}

#[test]
fn a_bank_of_one_tray_is_unfit(rt: HostRuntime) -> Result<(), Fail> {
    let calls = [Call::Open(0, 0)];
    let expected = [Event::Refused(calls[0], Refusal::UnfitBank)];
    play_over_rows(&rt, 1, &calls, &expected)
}

#[test]
fn a_bank_that_holds_a_cell_is_unfit(rt: HostRuntime) -> Result<(), Fail> {
    let mut table = [Cell::default(); 8];
    let mut bank = RowBank::new(&mut table, 4);
    assert_eq!(rt; bank.put(0, 0, note(1)), Ok(()));
    let calls = [Call::Open(0, 0)];
    let expected = [Event::Refused(calls[0], Refusal::UnfitBank)];
    play(&rt, bank, &calls, &expected)
}

#[test]
fn late_entries_keep_the_turn_back_before_its_cycle_is_looked_at(
    rt: HostRuntime,
) -> Result<(), Fail> {
    let calls = [
        Call::Open(0, 0),
        Call::Post(note(1)),
        Call::Turn(1),
        Call::Turn(7),
        Call::Name,
        Call::Turn(7),
        Call::Turn(2),
    ];
    let expected = [
        Event::Opened(0, 0),
        Event::Posted(entry(0, 1, 1)),
        Event::Turned(1, 1),
        Event::Refused(calls[3], Refusal::LateWaiting),
        Event::Named(Some(entry(0, 1, 1))),
        Event::Refused(calls[5], Refusal::NotNextCycle),
        Event::Turned(2, 0),
    ];
    play_over_rows(&rt, 4, &calls, &expected)
}
