// What one record of a steps file says.
ghost use Rattle.std.specs.Prelude.{◌≡◌};
ghost use Rattle.steps.specs.Reading.{IsBare, IsNumbered, IsStep, Reads};
ghost use Rattle.steps.specs.Tables.{ranges_of_bare, ranges_of_numbered};

use crate::fault::Unlawful;
use crate::posted::Posted;
use crate::ranges::{ByteRange, cut};

// One call of the lesson. A post carries its message, a turn the timer's cycle, and a warning the services in a cycle.
#[derive(Clone, Copy, Debug, PartialEq, Eq)]
pub enum Step<M> {
    Post(M),
    Dispatch,
    Turn(u32),
    Name,
    Warn(u32),
}

impl<M: Posted> Step<M> {
    // The step that a record says; otherwise how many of its first bytes some record has too.
    pub fn read(bytes: &[u8]) -> Result<Step<M>, Unlawful>
        ensures { Reads (IsStep M.Posted.format) 10 bytes.now result }
    {
        let first = bytes.first().ok_or(Unlawful { lawful_up_to: 0 })?;
        // The byte is the format's, and what it stands for is a step. The last arm returns, since with its error as a
        // value of the `match` a pen message goes through memory three times in place of once, and is read more slowly.
        Ok(match *first {
            1 => Step::Post(M::read_post(bytes)?),
            2 => {
                read_bare(bytes, 2)?;
                Step::Dispatch
            }
            3 => Step::Turn(read_number(bytes, 3)?),
            4 => {
                read_bare(bytes, 4)?;
                Step::Name
            }
            5 => Step::Warn(read_number(bytes, 5)?),
            _ => return Err(Unlawful { lawful_up_to: 0 }),
        })
    }
}

// Reads a record that names a step and says no more.
fn read_bare(bytes: &[u8], step: u8) -> Result<(), Unlawful>
    ensures { Reads (IsBare step) 10 bytes.now result }
{
    let ranges = bare_ranges(step);
    cut(bytes, &ranges)?;
    Ok(())
}

// Reads the number of a record that names a step and has one.
fn read_number(bytes: &[u8], step: u8) -> Result<u32, Unlawful>
    ensures { Reads (IsNumbered step) 10 bytes.now result }
{
    let ranges = numbered_ranges(step);
    let record = cut(bytes, &ranges)?;
    Ok(u32::from_be_bytes([record[4], record[5], record[6], record[7]]))
}

fn bare_ranges(step: u8) -> [ByteRange; 10]
    ensures { result ≡ ranges_of_bare step }
{
    let mut ranges = [ByteRange::only(0); 10];
    ranges[0] = ByteRange::only(step);
    ranges
}

fn numbered_ranges(step: u8) -> [ByteRange; 10]
    ensures { result ≡ ranges_of_numbered step }
{
    let mut ranges = bare_ranges(step);
    ranges[4..8].fill(ByteRange::ANY);
    ranges
}
