// Notes: what a pad reports besides the pen.
ghost use Rattle.std.specs.Prelude.{◌≡◌, Some};
ghost use Rattle.messages.specs.Notes.{kind_number};
ghost use Rattle.messages.specs.Numbers.{HasNumber};
ghost use Rattle.messages.specs.Texts.{kind_name, note_text};

use crate::message::{Message, Timed};
use crate::unknown::UnknownNumber;
use std::fmt;

// What a note reports.
#[derive(Clone, Copy, Debug, Default, PartialEq, Eq)]
pub enum NoteKind {
    #[default]
    PageKey = 11,
    RaisedHand = 12,
    Tilt = 13,
}

impl NoteKind {
    // The kind as a message tells it, by number.
    pub fn number(self) -> u8
        ensures { result ≡ kind_number self }
    {
        self as u8
    }
}

// The kind of a number.
impl TryFrom<u8> for NoteKind {
    type Error = UnknownNumber;

    ghost try_from_gives = { HasNumber kind_number };

    fn try_from(number: u8) -> Result<NoteKind, UnknownNumber> {
        match number {
            11 => Ok(NoteKind::PageKey),
            12 => Ok(NoteKind::RaisedHand),
            13 => Ok(NoteKind::Tilt),
            _ => Err(UnknownNumber(number)),
        }
    }
}

// One report of a pad, with an interval of its own and a payload that the hub does not look into.
#[derive(Clone, Copy, Debug, Default, PartialEq, Eq)]
pub struct Note {
    pub pad: u8,
    pub kind: NoteKind,
    pub interval: u8,
    pub payload: u32,
}

impl Note {
    // What a cell holds that holds no entry yet.
    pub const BLANK: Note = Note {
        pad: 0,
        kind: NoteKind::PageKey,
        interval: 0,
        payload: 0,
    };
}

impl Message for Note {
    ghost pad = { λ n. n.pad };

    ghost kind = { λ n. kind_number n.kind };

    fn pad(&self) -> u8 {
        self.pad
    }

    fn kind(&self) -> u8 {
        self.kind.number()
    }
}

impl Timed for Note {
    ghost interval = { λ n. n.interval };

    fn interval(&self) -> u8 {
        self.interval
    }
}

impl fmt::Display for NoteKind {
    ghost output = { λ k. Some (kind_name k) };

    fn fmt<W: fmt::Write>(&self, f: &mut fmt::Formatter<W>) -> fmt::Result {
        let name = match *self {
            NoteKind::PageKey => "page key",
            NoteKind::RaisedHand => "raised hand",
            NoteKind::Tilt => "tilt",
        };
        write!(f, "{name}")
    }
}

impl fmt::Display for Note {
    ghost output = { λ n. Some (note_text n) };

    fn fmt<W: fmt::Write>(&self, f: &mut fmt::Formatter<W>) -> fmt::Result {
        let Note {
            pad,
            kind,
            interval,
            payload,
        } = *self;
        write!(
            f,
            "note {kind} pad {pad} interval {interval} payload {payload}"
        )
    }
}
