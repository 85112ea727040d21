// Headers: each byte just outside what it may be, and each value that it may have.
use crate::outcomes::{NOTE_FILE, faulty, lawful, with_byte};
use messages::refusal::Refusal;
use steps::header::{BankKind, Header, MessageType};
use steps::steps_file::check;

#[test]
fn a_wrong_byte_is_the_fault(rt: HostRuntime) {
    let wrong = [
        (0usize, 0x44u8),
        (0, 0x46),
        (1, 0x55),
        (1, 0x57),
        (2, 0x50),
        (2, 0x52),
        (3, 1),
        (4, 0),
        (4, 2),
        (5, 0),
        (5, 3),
        (6, 1),
        (6, 129),
        (7, 0),
        (7, 3),
    ];
    for (place, byte) in wrong {
        let file = with_byte(NOTE_FILE, place, byte);
        assert_eq!(rt; check(&file), faulty(Refusal::BadHeader, place));
    }
}

#[test]
fn the_first_of_two_wrong_bytes_is_the_fault(rt: HostRuntime) {
    let mut file = NOTE_FILE;
    file[4] = 9;
    file[2] = 9;
    assert_eq!(rt; check(&file), faulty(Refusal::BadHeader, 2));
    file[2] = 0x51;
    assert_eq!(rt; check(&file), faulty(Refusal::BadHeader, 4));
}

#[test]
fn two_to_128_trays_are_lawful(rt: HostRuntime) {
    for trays in 2u8..=128 {
        let mut file = NOTE_FILE;
        file[6] = trays;
        assert_eq!(rt; check(&file), lawful(trays, 1));
    }
}

#[test]
fn each_type_and_bank_is_read(rt: HostRuntime) {
    let headers = [
        (1u8, 1u8, MessageType::Pen, BankKind::Row),
        (1, 2, MessageType::Pen, BankKind::Chain),
        (2, 1, MessageType::Note, BankKind::Row),
        (2, 2, MessageType::Note, BankKind::Chain),
    ];
    for (type_byte, bank_byte, message_type, bank) in headers {
        let bytes = [0x45u8, 0x56, 0x51, 0, 1, type_byte, 128, bank_byte];
        let header = Header {
            message_type,
            trays: 128,
            bank,
        };
        assert_eq!(rt; Header::read(&bytes), Ok(header));
    }
}
