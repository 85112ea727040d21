// The interface of a bank, in two traits: what a bank means, and its calls.
ghost use Rattle.std.specs.Prelude.{◌≡◌, ℕ, ◌<◌, ◌≤◌, List, length};
ghost use Rattle.banks.specs.Trays.{Puts, Takes, held_in, tray_at};
ghost use Rattle.banks.specs.declared.cell.Cell.{Cell};

use crate::cell::Cell;
use messages::message::Message;
use messages::refusal::Refusal;

// What a bank means. A tray is a list of cells, first in, first out, and a bank is a row of trays numbered from 0, each
// under a limit of its own, and all under one together.
pub trait Trays {
    // the type of message that the bank holds
    type Item: Message;

    // the cells of each tray, the first in first
    ghost trays: { Self → List (List (Cell Self.Item)) };

    // no tray holds more than this
    ghost tray_limit: { Self → ℕ };

    // all trays together hold no more than this
    ghost total_limit: { Self → ℕ };

    // where there is a tray, neither limit is 0
    ghost limits_leave_room: { (b : Self) → 0 < length (trays b) → (0 < tray_limit b) × (0 < total_limit b) };

    ghost few_trays: { (b : Self) → length (trays b) ≤ 128 };

    ghost each_tray_within_its_limit: { (b : Self) (k : ℕ) → length (tray_at (trays b) k) ≤ tray_limit b };

    ghost all_within_the_total: { (b : Self) → held_in (trays b) ≤ total_limit b };
}

// The calls of a bank. No call changes the number of trays or a limit, and a question changes nothing. `Puts` and `Takes`
// are told the three ghost members one by one: a record of them is the trait `Trays` itself, and this file cannot import
// definitions that speak of a trait of its own.
pub trait Bank: Trays {
    fn tray_count(&self) -> usize
        ensures { result ≡ length (Self.Trays.trays self.now) };

    fn tray_limit(&self) -> usize
        ensures { result ≡ Self.Trays.tray_limit self.now };

    fn total_limit(&self) -> usize
        ensures { result ≡ Self.Trays.total_limit self.now };

    // How many cells a tray holds: none where there is no such tray.
    fn count(&self, tray: usize) -> usize
        ensures { result ≡ length (tray_at (Self.Trays.trays self.now) tray) };

    // How many cells all trays hold.
    fn total(&self) -> usize
        ensures { result ≡ held_in (Self.Trays.trays self.now) };

    // Puts a cell at the end of a tray. Receipt and message come apart: the caller has no cell, and the bank makes it.
    fn put(&mut self, tray: usize, receipt: u32, message: Self::Item) -> Result<(), Refusal>
        ensures { Puts Self.Trays.trays Self.Trays.tray_limit Self.Trays.total_limit self.old self.new tray (record { receipt = receipt; message = message }) result };

    // Takes the first cell of a tray, if there is one.
    fn take(&mut self, tray: usize) -> Option<Cell<Self::Item>>
        ensures { Takes Self.Trays.trays Self.Trays.tray_limit Self.Trays.total_limit self.old self.new tray result };
}
