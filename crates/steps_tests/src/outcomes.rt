// What the tests expect of a whole file or of a record.
use messages::refusal::Refusal;
use steps::fault::{Fault, Unlawful};
use steps::header::{BankKind, Header, MessageType};
use steps::step::Step;
use steps::steps_file::Summary;

// A lawful file of one record: a tilt note, over a row bank of four trays.
pub(crate) const NOTE_FILE: [u8; 18] = [
    0x45, 0x56, 0x51, 0, 1, 2, 4, 1, 1, 7, 2, 13, 0xde, 0xad, 0xbe, 0xef, 0, 0,
];

// A file whose first unlawful byte is at the offset.
pub(crate) fn faulty(refusal: Refusal, offset: usize) -> Result<Summary, Fault> {
    Err(Fault { refusal, offset })
}

// Bytes of which only so many of the first are lawful for a record.
pub(crate) fn unlawful_at<M>(lawful_up_to: usize) -> Result<Step<M>, Unlawful> {
    Err(Unlawful { lawful_up_to })
}

// The bytes with another at one place.
pub(crate) fn with_byte<const N: usize>(mut bytes: [u8; N], place: usize, byte: u8) -> [u8; N] {
    if let Some(changed) = bytes.get_mut(place) {
        *changed = byte;
    }
    bytes
}

// A file of notes over a row bank.
pub(crate) fn lawful(trays: u8, records: usize) -> Result<Summary, Fault> {
    let header = Header {
        message_type: MessageType::Note,
        trays,
        bank: BankKind::Row,
    };
    Ok(Summary { header, records })
}
