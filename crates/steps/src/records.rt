// Reading the records of a steps file one by one.
ghost use Rattle.std.specs.Prelude.{◌≡◌, List};
ghost use Rattle.steps.specs.declared.step.Step.{Step};
ghost use Rattle.steps.specs.Progress.{HasRead, Law, Next};

use crate::fault::Fault;
use crate::header::Header;
use crate::posted::Posted;
use crate::step::Step;
use messages::refusal::Refusal;
use std::marker::PhantomData;

// One record: its ten bytes, which are a part of the file's own, their offset in the file, and the step that they say.
#[derive(Clone, Copy, Debug, PartialEq, Eq)]
pub struct Record<'a, M> {
    pub offset: usize,
    pub bytes: &'a [u8],
    pub step: Step<M>,
}

// A steps file that posts messages of the type M, read as far as `position`.
#[derive(Debug, Drop)]
pub struct Records<'a, M> {
    file: &'a [u8],
    header: Header,
    position: usize,
    message: PhantomData<M>,
}

impl<'a, M: Posted> Records<'a, M> {
    // The reader of a file whose header has been read.
    pub(crate) fn new(file: &'a [u8], header: Header) -> Records<'a, M>
        ensures { (result.file ≡ file.entry) × (result.header ≡ header) × (result.position ≡ 8) }
    {
        Records {
            file,
            header,
            position: 8,
            message: PhantomData,
        }
    }

    pub fn header(&self) -> Header
        ensures { result ≡ self.now.header }
    {
        self.header
    }

    // The next record, or none at the end of the file. After a fault the reader stands where it stood and gives the fault
    // again, so this is not the `next` of an `Iterator`, over which a `for` has to end.
    pub fn next(&mut self) -> Result<Option<Record<'a, M>>, Fault>
        ensures answer { Next M.Posted.format self.old self.new result }
        ensures law { (steps : List (Step M)) → HasRead M.Posted.format self.old steps → Law M.Posted.format steps self.new result }
    {
        let offset = self.position;
        if offset >= self.file.len() {
            return Ok(None);
        }
        let rest = &self.file[offset..];
        let step = Step::read(rest).map_err(|unlawful| Fault {
            refusal: Refusal::BadRecord,
            offset: offset + unlawful.lawful_up_to,
        })?;
        self.position = offset + 10;
        Ok(Some(Record {
            offset,
            bytes: &rest[..10],
            step,
        }))
    }
}
