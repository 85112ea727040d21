// Posts of notes.
ghost use Rattle.std.specs.Prelude.{◌≡◌};
ghost use Rattle.steps.specs.Formats.{note_format};
ghost use Rattle.steps.specs.Tables.{note_ranges};
ghost use Rattle.std.proofs.Common.{rules};

use crate::fault::Unlawful;
use crate::posted::Posted;
use crate::ranges::{ByteRange, cut};
use messages::note::{Note, NoteKind};

impl Posted for Note {
    ghost format = { note_format };

    ghost lawful = { Prim.search rules };

    ghost only = { Prim.search rules };

    fn read_post(bytes: &[u8]) -> Result<Note, Unlawful> {
        let ranges = post_ranges();
        let record = cut(bytes, &ranges)?;
        // The kind's byte lies in its range.
        Ok(Note {
            pad: record[1],
            interval: record[2],
            kind: NoteKind::try_from(record[3]).unwrap(),
            payload: u32::from_be_bytes([record[4], record[5], record[6], record[7]]),
        })
    }
}

// Step 1, the pad, the interval, the kind, and a payload of four bytes. A function, since no constant can
// call `ByteRange::only`.
fn post_ranges() -> [ByteRange; 10]
    ensures { result ≡ note_ranges }
{
    let any = ByteRange::ANY;
    [
        ByteRange::only(1),
        any,
        any,
        ByteRange { low: 11, high: 13 },
        any,
        any,
        any,
        any,
        ByteRange::only(0),
        ByteRange::only(0),
    ]
}
