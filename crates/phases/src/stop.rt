// Where the driving of a hub stopped before all rounds were made.
ghost use Rattle.std.specs.Prelude.{◌≡◌};
ghost use Rattle.phases.specs.declared.stop.Held.TheVariants.{InOutput, InReport};

use crate::phase::{Output, Report};
use crate::refused::Refused;

// The phase that could not be left, and why.
#[derive(Debug, PartialEq, Eq)]
pub enum Held {
    InReport(Refused<Report>),
    InOutput(Refused<Output>),
}

// Both `From` are by hand, since a clause names what `?` makes, and a derive would not say it.
impl From<Refused<Report>> for Held {
    ghost from_gives = { λ refused held. held ≡ InReport refused };

    fn from(refused: Refused<Report>) -> Held {
        Held::InReport(refused)
    }
}

impl From<Refused<Output>> for Held {
    ghost from_gives = { λ refused held. held ≡ InOutput refused };

    fn from(refused: Refused<Output>) -> Held {
        Held::InOutput(refused)
    }
}

// The number of the round, from 0 on.
#[derive(Debug, PartialEq, Eq)]
pub struct Stop {
    pub round: usize,
    pub held: Held,
}
