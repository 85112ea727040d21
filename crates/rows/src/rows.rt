// Where the cells of each tray lie in a row bank: its numbers, and no cell.
ghost use Rattle.std.specs.Prelude.{◌≡◌, ℕ, ◌+◌, ◌*◌, ◌%◌, ◌<◌, ◌≤◌, length, take, replicate, slice_set, sum_by, ◌≢◌};
ghost use Rattle.rows.specs.Rings.{counted, head_at, no_head, one_less, one_more, ring_place, row_limit, row_number};

use crate::head::Head;
use banks::serving::{MAX_TRAYS, serving_cells};

// The heads of the trays, of which the first `trays` are used, and how many cells a tray may hold. The ghost fields say
// what holds of every such value: few trays, a limit that leaves room, and no count above it. The heads are an array
// beside the lent table, since a bank uses no heap, and no vector of fixed capacity: how many are used never changes once
// the bank is made, so nothing is ever pushed.
#[derive(Clone, Copy, Debug, PartialEq, Eq)]
pub struct Rows {
    heads: [Head; MAX_TRAYS],
    trays: usize,
    limit: usize,
    ghost whole: { length heads ≡ 128 },
    ghost few: { trays ≤ 128 },
    ghost small: { limit ≤ 1024 },
    ghost some: { (0 < trays → 0 < limit) },
    ghost within: { ((k : ℕ) → (head_at heads k).count ≤ limit) },
}

// How many cells so few heads count together. The sum is a function of its own, since its bound is not proved where the
// heads are a part of an array.
fn total_of(heads: &[Head]) -> usize
    requires { length heads.now ≤ 128 }
    ensures { result ≡ sum_by (λ head. head.count) heads.now }
{
    heads.iter().map(|head| usize::from(head.count)).sum()
}

impl Rows {
    // Over a table of `len` cells: empty, and with no tray where there can be none.
    pub(crate) fn over(len: usize, trays: usize) -> Rows
        ensures trays { result.trays ≡ row_number len trays }
        ensures limit { result.limit ≡ row_limit len trays }
        ensures heads { result.heads ≡ replicate 128 no_head }
        ensures fits { result.trays * result.limit ≤ len }
    {
        let (trays, limit) = match serving_cells(len, trays).checked_div(trays) {
            None | Some(0) => (0, 0),
            Some(limit) => (trays, limit),
        };
        Rows {
            heads: [Head::default(); MAX_TRAYS],
            trays,
            limit,
        }
    }

    pub(crate) fn trays(&self) -> usize
        ensures { result ≡ self.now.trays }
    {
        self.trays
    }

    pub(crate) fn limit(&self) -> usize
        ensures { result ≡ self.now.limit }
    {
        self.limit
    }

    // None where there is no such tray.
    pub(crate) fn count(&self, tray: usize) -> usize
        ensures { result ≡ (head_at (take self.now.trays self.now.heads) tray).count }
    {
        let heads = &self.heads[..self.trays];
        heads.get(tray).map_or(0, |head| usize::from(head.count))
    }

    pub(crate) fn total(&self) -> usize
        ensures { result ≡ counted (take self.now.trays self.now.heads) }
    {
        total_of(&self.heads[..self.trays])
    }

    // One cell more at the end of a tray that has room. Answers its place in the table, at which no tray had an entry.
    pub(crate) fn push(&mut self, tray: usize) -> usize
        requires is_tray { tray < self.old.trays }
        requires has_room { (head_at self.old.heads tray).count < self.old.limit }
        ensures place { result ≡ ring_place self.old.limit tray (head_at self.old.heads tray) (head_at self.old.heads tray).count }
        ensures inside { result < self.old.trays * self.old.limit }
        ensures free { (k j : ℕ) → j < (head_at self.old.heads k).count → result ≢ ring_place self.old.limit k (head_at self.old.heads k) j }
        ensures trays { self.new.trays ≡ self.old.trays }
        ensures limit { self.new.limit ≡ self.old.limit }
        ensures heads { self.new.heads ≡ slice_set self.old.heads tray (one_more (head_at self.old.heads tray)) }
    {
        tray * self.limit + self.heads[tray].push(self.limit)
    }

    // The first cell of a tray that has one leaves it. Answers the place in the table where it lies.
    pub(crate) fn pop(&mut self, tray: usize) -> usize
        requires is_tray { tray < self.old.trays }
        requires has_cell { 0 < (head_at self.old.heads tray).count }
        ensures place { result ≡ ring_place self.old.limit tray (head_at self.old.heads tray) 0 }
        ensures inside { result < self.old.trays * self.old.limit }
        ensures trays { self.new.trays ≡ self.old.trays }
        ensures limit { self.new.limit ≡ self.old.limit }
        ensures heads { self.new.heads ≡ slice_set self.old.heads tray (one_less self.old.limit (head_at self.old.heads tray)) }
    {
        tray * self.limit + self.heads[tray].pop(self.limit)
    }
}
