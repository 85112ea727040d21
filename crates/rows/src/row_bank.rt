// A bank whose trays are rows of one table, side by side.
ghost use Rattle.std.specs.Prelude.{◌*◌, ◌≤◌, length};

use crate::rows::Rows;
use banks::cell::Cell;

mod calls;

// Of t trays over n serving cells, each has n / t cells, rounded down: tray k has those from k × (n / t) on. Of a longer
// table the first 1,024 cells serve.
#[derive(Debug, Drop)]
pub struct RowBank<'a, M> {
    cells: &'a mut [Cell<M>],
    rows: Rows,
    ghost fits: { rows.trays * rows.limit ≤ length cells.now },
}
