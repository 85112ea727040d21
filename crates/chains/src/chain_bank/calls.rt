// Making a chain bank, and its calls. None but the making takes longer for a longer table or a fuller tray.
// `lent` stands on each that makes or changes a bank, so that the caller knows that its own table comes back: an invariant
// sees one bank, and not the one before the call. The calls of the row bank have the same shape and share no code: there a
// place is computed, here a chain has it, and the traits are what both share.
ghost use Rattle.std.specs.Prelude.{◌≡◌, [], length, replicate, Ok};
ghost use Rattle.banks.specs.Trays.{Puts, Takes};
ghost use Rattle.chains.specs.ChainBanks.{FillsSomeFreeCell, bank_cells, bank_limit, bank_trays};
ghost use Rattle.chains.specs.Chains.{chain_number, chain_size};
ghost use Rattle.chains.specs.ChainLaws.{limits_some, number_few, each_within, held_within};

use super::ChainBank;
use crate::links::Links;
use banks::bank::{Bank, Trays};
use banks::cell::Cell;
use banks::serving::serving_cells;
use messages::message::Message;
use messages::refusal::Refusal;

impl<'a, M: Message> ChainBank<'a, M> {
    // An empty bank over a table, which stays as it is. It has no trays where `trays` is not 1 to 128, or where the table
    // has no cell.
    pub fn new(cells: &'a mut [Cell<M>], trays: usize) -> ChainBank<'a, M>
        ensures table { bank_cells result ≡ cells.old }
        ensures lent { result.cells.ghost_name ≡ cells.entry.ghost_name }
        ensures limit { bank_limit result ≡ chain_size (length cells.old) trays }
        ensures empty { bank_trays result ≡ replicate (chain_number (length cells.old) trays) [] }
    {
        let size = serving_cells(cells.len(), trays);
        ChainBank {
            cells,
            links: Links::new(size),
            trays: if size == 0 { 0 } else { trays },
        }
    }
}

impl<'a, M: Message> Trays for ChainBank<'a, M> {
    type Item = M;

    ghost trays = { bank_trays };

    ghost tray_limit = { bank_limit };

    ghost total_limit = { bank_limit };

    ghost limits_leave_room = { limits_some };

    ghost few_trays = { number_few };

    ghost each_tray_within_its_limit = { each_within };

    ghost all_within_the_total = { held_within };
}

impl<'a, M: Message> Bank for ChainBank<'a, M> {
    fn tray_count(&self) -> usize {
        self.trays
    }

    fn tray_limit(&self) -> usize {
        self.links.size()
    }

    fn total_limit(&self) -> usize {
        self.links.size()
    }

    fn count(&self, tray: usize) -> usize {
        if tray < self.trays {
            self.links.count(tray)
        } else {
            0
        }
    }

    fn total(&self) -> usize {
        self.links.size() - self.links.free_count()
    }

    // An accepted put writes one cell, some cell that held no entry.
    fn put(&mut self, tray: usize, receipt: u32, message: M) -> Result<(), Refusal>
        ensures puts { Puts bank_trays bank_limit bank_limit self.old self.new tray (record { receipt = receipt; message = message }) result }
        ensures fills { result ≡ Ok tt → FillsSomeFreeCell self.old self.new (record { receipt = receipt; message = message }) }
        ensures lent { self.new.cells.ghost_name ≡ self.old.cells.ghost_name }
    {
        if tray >= self.trays {
            return Err(Refusal::NoSuchTray);
        }
        if self.links.free_count() == 0 {
            return Err(Refusal::Full);
        }
        let place = self.links.fill(tray);
        self.cells[place] = Cell { receipt, message };
        Ok(())
    }

    // A take writes no cell.
    fn take(&mut self, tray: usize) -> Option<Cell<M>>
        ensures takes { Takes bank_trays bank_limit bank_limit self.old self.new tray result }
        ensures table { bank_cells self.new ≡ bank_cells self.old }
        ensures lent { self.new.cells.ghost_name ≡ self.old.cells.ghost_name }
    {
        if self.count(tray) == 0 {
            return None;
        }
        let place = self.links.release(tray);
        Some(self.cells[place])
    }
}
