// What each byte of a header or a record may be.
ghost use Rattle.std.specs.Prelude.{◌≡◌, ◌&&◌, nat_le};
ghost use Rattle.steps.specs.Ranges.{Cut, inside};

use crate::fault::Unlawful;

// The bytes from `low` to `high`, both included. Std's `RangeInclusive` is not `Copy`, so a table could not repeat it.
#[derive(Clone, Copy)]
pub struct ByteRange {
    pub low: u8,
    pub high: u8,
}

impl ByteRange {
    // Any byte.
    pub const ANY: ByteRange = ByteRange { low: 0, high: 255 };

    // This byte and no other.
    pub fn only(byte: u8) -> ByteRange
        ensures { result ≡ record { low = byte; high = byte } }
    {
        ByteRange {
            low: byte,
            high: byte,
        }
    }

    pub fn holds(self, byte: u8) -> bool
        ensures { result ≡ (nat_le self.low byte && nat_le byte self.high) }
    {
        (self.low..=self.high).contains(&byte)
    }
}

// How many bytes from the start lie each in its range: as many as there are ranges where all do.
pub fn count_inside(bytes: &[u8], ranges: &[ByteRange]) -> usize
    ensures { result ≡ inside ranges.now bytes.now }
{
    ranges
        .iter()
        .zip(bytes)
        .take_while(|(range, byte)| range.holds(**byte))
        .count()
}

// The first bytes, one for each range, if each lies in its range; otherwise how many do.
pub fn cut<'a>(bytes: &'a [u8], ranges: &[ByteRange]) -> Result<&'a [u8], Unlawful>
    ensures { Cut ranges.now bytes.now result }
{
    let inside = count_inside(bytes, ranges);
    if inside < ranges.len() {
        return Err(Unlawful {
            lawful_up_to: inside,
        });
    }
    Ok(&bytes[..inside])
}
