// What callers in other languages link, by the exports of the crate bench_driver_c: a function for each bank, since a C
// name has no type parameter.
ghost use Rattle.std.specs.Prelude.{◌≡◌};
ghost use Rattle.bench_driver.specs.Loads.{checksum, terms_over_chains, terms_over_rows};

use crate::driving::drive;
use banks::cell::Cell;
use banks::serving::MAX_CELLS;
use chains::chain_bank::ChainBank;
use rows::row_bank::RowBank;

// The checksum of a load over a row bank of 1,024 cells and so many trays.
#[tactic(auto, using(crate::proofs::NewBanks::sum_over_rows))]
pub fn pad_hub_load_over_rows(load: &[u8], trays: usize) -> u64
    ensures { result ≡ checksum (terms_over_rows 1024 trays) load.now }
{
    drive(RowBank::new(&mut [Cell::default(); MAX_CELLS], trays), load)
}

// The checksum of a load over a chain bank of 1,024 cells and so many trays.
#[tactic(auto, using(crate::proofs::NewBanks::sum_over_chains))]
pub fn pad_hub_load_over_chains(load: &[u8], trays: usize) -> u64
    ensures { result ≡ checksum (terms_over_chains 1024 trays) load.now }
{
    drive(
        ChainBank::new(&mut [Cell::default(); MAX_CELLS], trays),
        load,
    )
}
