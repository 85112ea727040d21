// Banks made over tables of every length.
use crate::drills::{Measured, measures, no_such_tray};
use banks::cell::Cell;
use chains::chain_bank::ChainBank;
use messages::note::Note;
use rows::row_bank::RowBank;
use std::process::Abort;
use std::test::Fail;

// What a bank is to have: so many trays, each with a limit, and one of all together.
fn wanted(trays: usize, tray_limit: usize, total_limit: usize) -> Measured {
    Measured {
        trays,
        tray_limit,
        total_limit,
    }
}

// Both banks over so many cells from the start of a table.
fn check_made(
    rt: &impl Abort,
    table: &mut [Cell<Note>],
    cells: usize,
    trays: usize,
    row: Measured,
    chain: Measured,
) -> Result<(), Fail> {
    if cells > table.len() {
        return Err(Fail::new("the table is too short for the test"));
    }
    assert_eq!(rt; measures(&RowBank::new(&mut table[..cells], trays)), row);
    assert_eq!(rt;
        measures(&ChainBank::new(&mut table[..cells], trays)),
        chain
    );
    Ok(())
}

fn check_all(rt: &impl Abort, table: &mut [Cell<Note>]) -> Result<(), Fail> {
    // how many cells there are, how many trays are asked for, and what the row bank and the chain bank have
    let made = [
        (0, 1, wanted(0, 0, 0), wanted(0, 0, 0)),
        (1, 1, wanted(1, 1, 1), wanted(1, 1, 1)),
        (1, 2, wanted(0, 0, 0), wanted(2, 1, 1)),
        (3, 4, wanted(0, 0, 0), wanted(4, 3, 3)),
        (127, 128, wanted(0, 0, 0), wanted(128, 127, 127)),
        (128, 128, wanted(128, 1, 128), wanted(128, 128, 128)),
        (1_023, 2, wanted(2, 511, 1_022), wanted(2, 1_023, 1_023)),
        (1_024, 128, wanted(128, 8, 1_024), wanted(128, 1_024, 1_024)),
        (1_025, 2, wanted(2, 512, 1_024), wanted(2, 1_024, 1_024)),
        (5_000, 3, wanted(3, 341, 1_023), wanted(3, 1_024, 1_024)),
        (5_000, 0, wanted(0, 0, 0), wanted(0, 0, 0)),
        (5_000, 129, wanted(0, 0, 0), wanted(0, 0, 0)),
        (256, 4, wanted(4, 64, 256), wanted(4, 256, 256)),
    ];
    for (cells, trays, row, chain) in made {
        check_made(rt, table, cells, trays, row, chain)?;
    }
    Ok(())
}

#[test]
fn trays_and_limits_are_those_of_the_table(rt: HostRuntime) -> Result<(), Fail> {
    let mut table = [Cell::default(); 5_000];
    check_all(&rt, &mut table)
}

#[test]
fn a_bank_of_no_trays_takes_nothing(rt: HostRuntime) {
    let mut table = [Cell::default(); 3];
    no_such_tray(&rt, &mut RowBank::new(&mut table, 4), 0);
    let mut nothing = [Cell::default(); 0];
    no_such_tray(&rt, &mut ChainBank::new(&mut nothing, 4), 0);
}
