// A whole steps file, from its first byte to its last.
ghost use Rattle.std.specs.Prelude.{◌≡◌, [], IfErr};
ghost use Rattle.messages.specs.declared.refusal.Refusal.TheVariants.{BadHeader};
ghost use Rattle.steps.specs.Opening.{Checks, Opens, SumsUp};
ghost use Rattle.steps.specs.Progress.{HasRead};

use crate::fault::Fault;
use crate::header::{Header, MessageType};
use crate::posted::Posted;
use crate::records::Records;
use messages::note::Note;
use messages::pen::PenMessage;
use messages::refusal::Refusal;

// As many bytes as a header and 3,000 records have.
pub const LONGEST: usize = 30_008;

// The records of a file, by the type of message that its header names.
#[derive(Debug, Drop)]
pub enum StepsFile<'a> {
    Pen(Records<'a, PenMessage>),
    Note(Records<'a, Note>),
}

// What a lawful file holds.
#[derive(Clone, Copy, Debug, PartialEq, Eq)]
pub struct Summary {
    pub header: Header,
    pub records: usize,
}

impl<'a> StepsFile<'a> {
    // Reads the header. A file that is too long is refused before its bytes are looked at.
    pub fn open(file: &'a [u8]) -> Result<StepsFile<'a>, Fault>
        ensures opened { Opens file.entry result }
        ensures header { IfErr result (λ fault. fault.refusal ≡ BadHeader) }
    {
        if file.len() > LONGEST {
            return Err(Fault {
                refusal: Refusal::BadHeader,
                offset: LONGEST,
            });
        }
        let header = Header::read(file).map_err(|unlawful| Fault {
            refusal: Refusal::BadHeader,
            offset: unlawful.lawful_up_to,
        })?;
        match header.message_type {
            MessageType::Pen => Ok(StepsFile::Pen(Records::new(file, header))),
            MessageType::Note => Ok(StepsFile::Note(Records::new(file, header))),
        }
    }
}

// Reads a whole file: its header and the number of its records, or where it stops being lawful.
pub fn check(file: &[u8]) -> Result<Summary, Fault>
    ensures { Checks file.now result }
{
    match StepsFile::open(file)? {
        StepsFile::Pen(records) => sum_up(records),
        StepsFile::Note(records) => sum_up(records),
    }
}

fn sum_up<M: Posted>(mut records: Records<M>) -> Result<Summary, Fault>
    ensures { HasRead M.Posted.format records.entry [] → SumsUp M.Posted.format records.entry result }
{
    let header = records.header();
    // Counted by hand, since the reader is no iterator: see `Records::next`.
    let mut count = 0;
    while let Some(_) = records.next()? {
        count += 1;
    }
    Ok(Summary {
        header,
        records: count,
    })
}
