// Banks in use: filled, emptied, gone round, and at their limits.
use crate::drills::{fill_and_empty, interleave, no_such_tray};
use banks::bank::Bank;
use banks::cell::Cell;
use chains::chain_bank::ChainBank;
use messages::note::Note;
use messages::pen::PenMessage;
use messages::refusal::Refusal;
use rows::row_bank::RowBank;
use std::process::Abort;
use std::test::Fail;

// A tray of a bank of two takes so many cells, again once it is empty, and so does the other.
fn filled_thrice<B: Bank<Item = Note>>(
    rt: &impl Abort,
    bank: &mut B,
    cells: usize,
) -> Result<(), Fail> {
    for tray in [1, 1, 0] {
        assert_eq!(rt; fill_and_empty(rt, bank, tray)?, cells);
    }
    Ok(())
}

// The five trays of a bank are used in turn, and there is no sixth.
fn gone_round<B: Bank<Item = Note>>(rt: &impl Abort, bank: &mut B) -> Result<(), Fail> {
    interleave(rt, bank, 20)?;
    no_such_tray(rt, bank, 5);
    Ok(())
}

#[test]
fn a_row_tray_is_filled_and_emptied(rt: HostRuntime) -> Result<(), Fail> {
    filled_thrice(&rt, &mut RowBank::new(&mut [Cell::default(); 9], 2), 4)
}

#[test]
fn a_chain_tray_is_filled_and_emptied(rt: HostRuntime) -> Result<(), Fail> {
    filled_thrice(&rt, &mut ChainBank::new(&mut [Cell::default(); 9], 2), 9)
}

#[test]
fn row_trays_go_round_side_by_side(rt: HostRuntime) -> Result<(), Fail> {
    gone_round(&rt, &mut RowBank::new(&mut [Cell::default(); 15], 5))
}

#[test]
fn chain_trays_go_round_side_by_side(rt: HostRuntime) -> Result<(), Fail> {
    gone_round(&rt, &mut ChainBank::new(&mut [Cell::default(); 15], 5))
}

// Puts receipts 0, 1, 2 into tray 0 of a bank whose tray 0 takes two, and one into tray 1.
fn at_the_limits<B: Bank<Item = Note>>(bank: &mut B) -> [Result<(), Refusal>; 4] {
    [
        bank.put(0, 0, Note::default()),
        bank.put(0, 1, Note::default()),
        bank.put(0, 2, Note::default()),
        bank.put(1, 3, Note::default()),
    ]
}

#[test]
fn a_full_row_refuses_and_another_takes(rt: HostRuntime) {
    let mut table = [Cell::default(); 4];
    let mut bank = RowBank::new(&mut table, 2);
    assert_eq!(rt;
        at_the_limits(&mut bank),
        [Ok(()), Ok(()), Err(Refusal::Full), Ok(())]
    );
}

#[test]
fn a_full_table_refuses_every_chain(rt: HostRuntime) {
    let mut table = [Cell::default(); 2];
    let mut bank = ChainBank::new(&mut table, 2);
    assert_eq!(rt;
        at_the_limits(&mut bank),
        [Ok(()), Ok(()), Err(Refusal::Full), Err(Refusal::Full)]
    );
}

#[test]
fn the_table_comes_back_with_what_was_put(rt: HostRuntime) {
    let mut table = [Cell::default(); 4];
    {
        let mut bank = RowBank::new(&mut table, 2);
        assert_eq!(rt; bank.put(1, 9, Note::default()), Ok(()));
        let _ = bank.take(1);
        assert_eq!(rt; bank.put(1, 8, Note::default()), Ok(()));
    }
    assert_eq!(rt; table.map(|cell| cell.receipt), [0, 0, 9, 8]);
}

// The constants for tables of blank cells are what `default` gives.
#[test]
fn a_blank_message_is_the_default(rt: HostRuntime) {
    assert_eq!(rt; Note::BLANK, Note::default());
    assert_eq!(rt; PenMessage::BLANK, PenMessage::default());
}
