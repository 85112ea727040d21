// A bank whose trays are chains through one table.
ghost use Rattle.std.specs.Prelude.{◌≡◌, ◌+◌, ◌<◌, ◌≤◌, length, take};
ghost use Rattle.chains.specs.Chains.{counted};

use crate::links::Links;
use banks::cell::Cell;

mod calls;

// Any cell can serve any tray, so a tray may hold as many cells as all together. Each tray has a chain of its cells, and
// one chain has those that hold no entry. Of a longer table the first 1,024 cells serve.
#[derive(Debug, Drop)]
pub struct ChainBank<'a, M> {
    cells: &'a mut [Cell<M>],
    links: Links,
    trays: usize,
    ghost few: { trays ≤ 128 },
    ghost fits: { links.size ≤ length cells.now },
    ghost some: { (0 < trays → 0 < links.size) },
    ghost all: { counted (take trays links.heads) + links.free.count ≡ links.size },
}
