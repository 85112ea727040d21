// The first eight bytes of a steps file.
ghost use Rattle.std.specs.Prelude.{◌≡◌};
ghost use Rattle.messages.specs.Numbers.{HasNumber};
ghost use Rattle.steps.specs.Layout.{bank_number, type_number};
ghost use Rattle.steps.specs.Reading.{IsHeader, Reads};
ghost use Rattle.steps.specs.Tables.{ranges_of_header};

use crate::fault::Unlawful;
use crate::ranges::{ByteRange, cut};
use messages::unknown::UnknownNumber;

// The type of all messages that a file posts.
#[derive(Clone, Copy, Debug, PartialEq, Eq)]
pub enum MessageType {
    Pen = 1,
    Note = 2,
}

// The message type of a number.
impl TryFrom<u8> for MessageType {
    type Error = UnknownNumber;

    ghost try_from_gives = { HasNumber type_number };

    fn try_from(number: u8) -> Result<MessageType, UnknownNumber> {
        match number {
            1 => Ok(MessageType::Pen),
            2 => Ok(MessageType::Note),
            _ => Err(UnknownNumber(number)),
        }
    }
}

// The bank that the lesson is to be run over.
#[derive(Clone, Copy, Debug, PartialEq, Eq)]
pub enum BankKind {
    Row = 1,
    Chain = 2,
}

// The bank of a number.
impl TryFrom<u8> for BankKind {
    type Error = UnknownNumber;

    ghost try_from_gives = { HasNumber bank_number };

    fn try_from(number: u8) -> Result<BankKind, UnknownNumber> {
        match number {
            1 => Ok(BankKind::Row),
            2 => Ok(BankKind::Chain),
            _ => Err(UnknownNumber(number)),
        }
    }
}

// What a file asks for: the type of its messages, and a bank with a number of trays, 2 to 128.
#[derive(Clone, Copy, Debug, PartialEq, Eq)]
pub struct Header {
    pub message_type: MessageType,
    pub trays: u8,
    pub bank: BankKind,
}

impl Header {
    // The header that a file begins with; otherwise how many of its first bytes some header has too.
    pub fn read(file: &[u8]) -> Result<Header, Unlawful>
        ensures { Reads IsHeader 8 file.now result }
    {
        let ranges = header_ranges();
        let bytes = cut(file, &ranges)?;
        // Each byte lies in its range, so its number has a value.
        Ok(Header {
            message_type: MessageType::try_from(bytes[5]).unwrap(),
            trays: bytes[6],
            bank: BankKind::try_from(bytes[7]).unwrap(),
        })
    }
}

// The mark "EVQ", the version 1, the type, the trays and the bank. A function, since no constant can
// call `ByteRange::only`.
fn header_ranges() -> [ByteRange; 8]
    ensures { result ≡ ranges_of_header }
{
    [
        ByteRange::only(0x45),
        ByteRange::only(0x56),
        ByteRange::only(0x51),
        ByteRange::only(0),
        ByteRange::only(1),
        ByteRange { low: 1, high: 2 },
        ByteRange { low: 2, high: 128 },
        ByteRange { low: 1, high: 2 },
    ]
}
