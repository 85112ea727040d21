// What a caller knows of its table once the bank is given up.
ghost use Rattle.std.specs.Prelude.{◌≡◌};

use banks::bank::Bank;
use banks::cell::Cell;
use chains::chain_bank::ChainBank;
use messages::note::Note;
use rows::row_bank::RowBank;

// A cell that no bank has written.
fn nine() -> Cell<Note>
    ensures { result.receipt ≡ 9 }
{
    Cell {
        receipt: 9,
        message: Note::default(),
    }
}

// A new bank has written no cell.
pub fn untouched_by_making() -> u32
    ensures { result ≡ 9 }
{
    let mut table = [nine(); 4];
    let bank = RowBank::new(&mut table, 2);
    let _ = bank.tray_count();
    table[3].receipt
}

// A put into tray 1 of two over four cells has written cell 2.
pub fn written_by_a_put() -> u32
    ensures { result ≡ 5 }
{
    let mut table = [nine(); 4];
    let mut bank = RowBank::new(&mut table, 2);
    let _ = bank.put(1, 5, Note::default());
    table[2].receipt
}
