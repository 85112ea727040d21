// Making a row bank, and its calls. `lent` stands on each that makes or changes a bank, so that the caller knows that its
// own table comes back: an invariant sees one bank, and not the one before the call. The calls of the chain bank have the
// same shape and share no code: here a place is computed, there a chain has it, and the traits are what both share.
ghost use Rattle.std.specs.Prelude.{◌≡◌, ℕ, ◌*◌, ◌<◌, ◌≤◌, [], length, replicate, Ok};
ghost use Rattle.banks.specs.Trays.{Puts, Takes};
ghost use Rattle.rows.specs.Rings.{no_head, row_limit, row_number};
ghost use Rattle.rows.specs.RowBanks.{Fills, Moves, bank_cells, bank_limit, bank_total, bank_trays};
ghost use Rattle.rows.specs.RowLaws.{limits_some, number_few, each_within, held_within};

use super::RowBank;
use crate::rows::Rows;
use banks::bank::{Bank, Trays};
use banks::cell::Cell;
use messages::message::Message;
use messages::refusal::Refusal;

impl<'a, M: Message> RowBank<'a, M> {
    // An empty bank over a table, which stays as it is. It has no trays where `trays` is not 1 to 128, or where the table
    // has fewer cells than trays.
    pub fn new(cells: &'a mut [Cell<M>], trays: usize) -> RowBank<'a, M>
        ensures table { bank_cells result ≡ cells.old }
        ensures lent { result.cells.ghost_name ≡ cells.entry.ghost_name }
        ensures limit { bank_limit result ≡ row_limit (length cells.old) trays }
        ensures total { bank_total result ≡ row_number (length cells.old) trays * row_limit (length cells.old) trays }
        ensures heads { result.rows.heads ≡ replicate 128 no_head }
        ensures empty { bank_trays result ≡ replicate (row_number (length cells.old) trays) [] }
    {
        let rows = Rows::over(cells.len(), trays);
        RowBank { cells, rows }
    }
}

impl<'a, M: Message> Trays for RowBank<'a, M> {
    type Item = M;

    ghost trays = { bank_trays };

    ghost tray_limit = { bank_limit };

    ghost total_limit = { bank_total };

    ghost limits_leave_room = { limits_some };

    ghost few_trays = { number_few };

    ghost each_tray_within_its_limit = { each_within };

    ghost all_within_the_total = { held_within };
}

impl<'a, M: Message> Bank for RowBank<'a, M> {
    fn tray_count(&self) -> usize {
        self.rows.trays()
    }

    fn tray_limit(&self) -> usize {
        self.rows.limit()
    }

    fn total_limit(&self) -> usize {
        self.rows.trays() * self.rows.limit()
    }

    fn count(&self, tray: usize) -> usize {
        self.rows.count(tray)
    }

    fn total(&self) -> usize {
        self.rows.total()
    }

    // An accepted put writes the one cell after the tray's last, and raises that tray's count.
    fn put(&mut self, tray: usize, receipt: u32, message: M) -> Result<(), Refusal>
        ensures puts { Puts bank_trays bank_limit bank_total self.old self.new tray (record { receipt = receipt; message = message }) result }
        ensures fills { result ≡ Ok tt → Fills self.old self.new tray (record { receipt = receipt; message = message }) }
        ensures lent { self.new.cells.ghost_name ≡ self.old.cells.ghost_name }
    {
        if tray >= self.rows.trays() {
            return Err(Refusal::NoSuchTray);
        }
        if self.rows.count(tray) >= self.rows.limit() {
            return Err(Refusal::Full);
        }
        let place = self.rows.push(tray);
        self.cells[place] = Cell { receipt, message };
        Ok(())
    }

    // A take writes no cell. It moves the tray's first place on by one.
    fn take(&mut self, tray: usize) -> Option<Cell<M>>
        ensures takes { Takes bank_trays bank_limit bank_total self.old self.new tray result }
        ensures moves { Moves self.old self.new tray result }
        ensures lent { self.new.cells.ghost_name ≡ self.old.cells.ghost_name }
    {
        if self.count(tray) == 0 {
            return None;
        }
        let place = self.rows.pop(tray);
        Some(self.cells[place])
    }
}
