// Messages of a pen on a pad.
ghost use Rattle.std.specs.Prelude.{◌≡◌, Some};
ghost use Rattle.messages.specs.Numbers.{HasNumber};
ghost use Rattle.messages.specs.Pens.{told_by};
ghost use Rattle.messages.specs.Texts.{pen_text, stage_name};

use crate::message::{Message, Timed};
use crate::unknown::UnknownNumber;
use std::fmt;

// Where in a line the pen is: it is set down, moves on, or is lifted.
#[derive(Clone, Copy, Debug, Default, PartialEq, Eq)]
pub enum Stage {
    #[default]
    Down = 1,
    Sample = 2,
    Up = 3,
}

impl Stage {
    // The kind of a pen message in this stage, by number, as a message tells it.
    pub fn kind(self) -> u8
        ensures { result ≡ (told_by self).kind }
    {
        self as u8
    }

    // The interval of a pen message in this stage, in hub cycles.
    pub fn interval(self) -> u8
        ensures { result ≡ (told_by self).interval }
    {
        match self {
            Stage::Down => 1,
            Stage::Sample => 2,
            Stage::Up => 3,
        }
    }
}

// The stage of the pen messages of a kind.
impl TryFrom<u8> for Stage {
    type Error = UnknownNumber;

    ghost try_from_gives = { HasNumber (λ stage. (told_by stage).kind) };

    fn try_from(kind: u8) -> Result<Stage, UnknownNumber> {
        match kind {
            1 => Ok(Stage::Down),
            2 => Ok(Stage::Sample),
            3 => Ok(Stage::Up),
            _ => Err(UnknownNumber(kind)),
        }
    }
}

// One report of a pen: its place on the pad and the force on its tip.
#[derive(Clone, Copy, Debug, Default, PartialEq, Eq)]
pub struct PenMessage {
    pub pad: u8,
    pub stage: Stage,
    pub x: u16,
    pub y: u16,
    pub force: u16,
}

impl PenMessage {
    // What a cell holds that holds no entry yet.
    pub const BLANK: PenMessage = PenMessage {
        pad: 0,
        stage: Stage::Down,
        x: 0,
        y: 0,
        force: 0,
    };
}

impl Message for PenMessage {
    ghost pad = { λ m. m.pad };

    ghost kind = { λ m. (told_by m.stage).kind };

    fn pad(&self) -> u8 {
        self.pad
    }

    fn kind(&self) -> u8 {
        self.stage.kind()
    }
}

impl Timed for PenMessage {
    ghost interval = { λ m. (told_by m.stage).interval };

    fn interval(&self) -> u8 {
        self.stage.interval()
    }
}

impl fmt::Display for Stage {
    ghost output = { λ s. Some (stage_name s) };

    fn fmt<W: fmt::Write>(&self, f: &mut fmt::Formatter<W>) -> fmt::Result {
        let name = match *self {
            Stage::Down => "down",
            Stage::Sample => "sample",
            Stage::Up => "up",
        };
        write!(f, "{name}")
    }
}

impl fmt::Display for PenMessage {
    ghost output = { λ m. Some (pen_text m) };

    fn fmt<W: fmt::Write>(&self, f: &mut fmt::Formatter<W>) -> fmt::Result {
        let PenMessage {
            pad,
            stage,
            x,
            y,
            force,
        } = *self;
        write!(f, "pen {stage} pad {pad} x {x} y {y} force {force}")
    }
}
