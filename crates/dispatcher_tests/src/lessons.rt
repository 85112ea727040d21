// Small lessons, each over a row bank and over a chain bank.
use crate::players::{entry, note, play};
use banks::bank::Bank;
use banks::cell::Cell;
use chains::chain_bank::ChainBank;
use dispatcher::call::Call;
use dispatcher::entry::{Figures, Warning};
use dispatcher::event::Event;
use messages::note::Note;
use messages::refusal::Refusal;
use rows::row_bank::RowBank;
use std::process::Abort;
use std::test::Fail;

// Three notes of intervals 2, 1 and 0, of which one is late in the end.
fn a_late_note<B: Bank<Item = Note> + Drop>(
    rt: &(impl Abort + AllocGlobal),
    bank: B,
) -> Result<(), Fail> {
    let calls = [
        Call::Open(0, 0),
        Call::Post(note(2)),
        Call::Post(note(1)),
        Call::Post(note(0)),
        Call::Warn(1),
        Call::Dispatch,
        Call::Turn(1),
        Call::Turn(2),
        Call::Turn(3),
        Call::Name,
        Call::Dispatch,
        Call::Ask,
    ];
    let expected = [
        Event::Opened(0, 0),
        Event::Posted(entry(0, 2, 2)),
        Event::Posted(entry(1, 1, 1)),
        Event::Refused(Call::Post(note(0)), Refusal::IntervalOutOfRange),
        Event::Warned(1, None),
        Event::Dispatched(Some(entry(1, 1, 1))),
        Event::Turned(1, 0),
        Event::Turned(2, 1),
        Event::Refused(Call::Turn(3), Refusal::LateWaiting),
        Event::Named(Some(entry(0, 2, 2))),
        Event::Dispatched(None),
        Event::Asked(Figures {
            cycle: 2,
            accepted: 2,
            dispatched: 1,
            late: 1,
            pending: 0,
            waiting: 0,
        }),
    ];
    play(rt, bank, &calls, &expected)
}

#[test]
fn a_late_note_over_a_row_bank(rt: HostRuntime) -> Result<(), Fail> {
    a_late_note(&rt, RowBank::new(&mut [Cell::default(); 256], 4))
}

#[test]
fn a_late_note_over_a_chain_bank(rt: HostRuntime) -> Result<(), Fail> {
    a_late_note(&rt, ChainBank::new(&mut [Cell::default(); 256], 4))
}

// A note of the longest interval, posted while a late one waits in the tray of the present cycle: it is no late entry,
// and it is dispatched in its turn.
fn the_longest_interval<B: Bank<Item = Note> + Drop>(
    rt: &(impl Abort + AllocGlobal),
    bank: B,
) -> Result<(), Fail> {
    let calls = [
        Call::Open(0, 0),
        Call::Post(note(1)),
        Call::Turn(1),
        Call::Post(note(3)),
        Call::Name,
        Call::Name,
        Call::Warn(0),
        Call::Dispatch,
    ];
    let expected = [
        Event::Opened(0, 0),
        Event::Posted(entry(0, 1, 1)),
        Event::Turned(1, 1),
        Event::Posted(entry(1, 3, 4)),
        Event::Named(Some(entry(0, 1, 1))),
        Event::Named(None),
        Event::Warned(0, Some(Warning { ahead: 3, load: 1 })),
        Event::Dispatched(Some(entry(1, 3, 4))),
    ];
    play(rt, bank, &calls, &expected)
}

#[test]
fn the_longest_interval_over_a_row_bank(rt: HostRuntime) -> Result<(), Fail> {
    the_longest_interval(&rt, RowBank::new(&mut [Cell::default(); 8], 4))
}

#[test]
fn the_longest_interval_over_a_chain_bank(rt: HostRuntime) -> Result<(), Fail> {
    the_longest_interval(&rt, ChainBank::new(&mut [Cell::default(); 2], 4))
}

// A full tray refuses, and a dispatch frees the place: a row tray of two cells, and a chain bank of two cells in all.
fn room_again<B: Bank<Item = Note> + Drop>(
    rt: &(impl Abort + AllocGlobal),
    bank: B,
) -> Result<(), Fail> {
    let calls = [
        Call::Open(0, 0),
        Call::Post(note(1)),
        Call::Post(note(1)),
        Call::Post(note(1)),
        Call::Dispatch,
        Call::Post(note(1)),
    ];
    let expected = [
        Event::Opened(0, 0),
        Event::Posted(entry(0, 1, 1)),
        Event::Posted(entry(1, 1, 1)),
        Event::Refused(Call::Post(note(1)), Refusal::Full),
        Event::Dispatched(Some(entry(0, 1, 1))),
        Event::Posted(entry(2, 1, 1)),
    ];
    play(rt, bank, &calls, &expected)
}

#[test]
fn a_row_has_room_again(rt: HostRuntime) -> Result<(), Fail> {
    room_again(&rt, RowBank::new(&mut [Cell::default(); 8], 4))
}

#[test]
fn a_chain_bank_has_room_again(rt: HostRuntime) -> Result<(), Fail> {
    room_again(&rt, ChainBank::new(&mut [Cell::default(); 2], 4))
}
