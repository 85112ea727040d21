// What can stand in the way of a listing.
ghost use Rattle.std.specs.Prelude.{◌≡◌};
ghost use Rattle.runner.specs.declared.listing.Unlisted.TheVariants.{NoMemory};

use messages::refusal::Refusal;
use std::alloc::AllocError;
use thiserror::Error;

mod making;

pub use making::{FAULT_LINE, OUTPUT, list, list_header_fault};

// Why there is no listing: the output is too short, which is the refusal 16, or there was no memory.
#[derive(Clone, Copy, Debug, PartialEq, Eq, Error)]
pub enum Unlisted {
    #[error("{0}")]
    Refused(Refusal),
    #[error("{0}")]
    NoMemory(AllocError),
}

// Written by hand, since a clause of `list` names the error that `?` makes.
impl From<AllocError> for Unlisted {
    ghost from_gives = { λ error unlisted. unlisted ≡ NoMemory error };

    fn from(error: AllocError) -> Unlisted {
        Unlisted::NoMemory(error)
    }
}
