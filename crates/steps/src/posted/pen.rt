// Posts of pen messages.
ghost use Rattle.std.specs.Prelude.{◌≡◌};
ghost use Rattle.steps.specs.Formats.{pen_format};
ghost use Rattle.steps.specs.Tables.{pen_ranges};
ghost use Rattle.std.proofs.Common.{rules};

use crate::fault::Unlawful;
use crate::posted::Posted;
use crate::ranges::{ByteRange, cut};
use messages::pen::{PenMessage, Stage};

impl Posted for PenMessage {
    ghost format = { pen_format };

    ghost lawful = { Prim.search rules };

    ghost only = { Prim.search rules };

    fn read_post(bytes: &[u8]) -> Result<PenMessage, Unlawful> {
        let ranges = post_ranges();
        let record = cut(bytes, &ranges)?;
        // The stage's byte lies in its range, and is the kind of the stage's messages.
        Ok(PenMessage {
            pad: record[1],
            stage: Stage::try_from(record[2]).unwrap(),
            x: u16::from_be_bytes([record[4], record[5]]),
            y: u16::from_be_bytes([record[6], record[7]]),
            force: u16::from_be_bytes([record[8], record[9]]),
        })
    }
}

// Step 1, the pad, the stage, and x, y and force of two bytes each. A function, since no constant can
// call `ByteRange::only`.
fn post_ranges() -> [ByteRange; 10]
    ensures { result ≡ pen_ranges }
{
    let any = ByteRange::ANY;
    [
        ByteRange::only(1),
        any,
        ByteRange { low: 1, high: 3 },
        ByteRange::only(0),
        any,
        any,
        any,
        any,
        any,
        any,
    ]
}
