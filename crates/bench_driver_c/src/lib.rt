// The static library of bench_driver, which callers in other languages link. A slice crosses as the address of its first
// byte and its length. Each bank has a function of its own, since a C name has no type parameter.
#![tactic(auto)]

ghost use Rattle.std.specs.Prelude.{◌≡◌};
ghost use Rattle.bench_driver.specs.Loads.{checksum, terms_over_chains, terms_over_rows};

use bench_driver::exported;

// The checksum of a load over a row bank of 1,024 cells and so many trays.
#[unsafe(no_mangle)]
pub extern "C" fn pad_hub_load_over_rows(load: &[u8], trays: usize) -> u64
    ensures { result ≡ checksum (terms_over_rows 1024 trays) load.now }
{
    exported::pad_hub_load_over_rows(load, trays)
}

// The checksum of a load over a chain bank of 1,024 cells and so many trays.
#[unsafe(no_mangle)]
pub extern "C" fn pad_hub_load_over_chains(load: &[u8], trays: usize) -> u64
    ensures { result ≡ checksum (terms_over_chains 1024 trays) load.now }
{
    exported::pad_hub_load_over_chains(load, trays)
}
