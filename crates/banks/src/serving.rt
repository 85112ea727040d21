// How much of a table serves a bank.
ghost use Rattle.std.specs.Prelude.{◌≡◌, ◌<◌, ◌≤◌};
ghost use Rattle.banks.specs.Serving.{serving};

// No bank has more trays.
pub const MAX_TRAYS: usize = 128;

// Of a longer table the first so many cells serve.
pub const MAX_CELLS: usize = 1024;

// How many cells of a table of `len` cells serve so many trays: none where there can be no tray.
pub fn serving_cells(len: usize, trays: usize) -> usize
    ensures value { result ≡ serving len trays }
    ensures within { result ≤ len }
    ensures few { result ≤ 1024 }
    ensures some { 0 < result → (0 < trays) × (trays ≤ 128) }
{
    if trays == 0 || trays > MAX_TRAYS {
        return 0;
    }
    len.min(MAX_CELLS)
}
