// Files by their length: cut at every byte, and as long as a file can be.
use crate::outcomes::{NOTE_FILE, faulty, lawful};
use messages::refusal::Refusal;
use steps::steps_file::check;

#[test]
fn a_file_that_breaks_off_is_at_fault_at_its_length(rt: HostRuntime) {
    for length in 0usize..18 {
        let expected = match length {
            0..8 => faulty(Refusal::BadHeader, length),
            8 => lawful(4, 0),
            _ => faulty(Refusal::BadRecord, length),
        };
        assert_eq!(rt; check(&NOTE_FILE[..length]), expected);
    }
    assert_eq!(rt; check(&NOTE_FILE), lawful(4, 1));
}

#[test]
fn a_wrong_byte_before_the_cut_is_the_fault(rt: HostRuntime) {
    let mut file = NOTE_FILE;
    file[11] = 14;
    assert_eq!(rt; check(&file[0..12]), faulty(Refusal::BadRecord, 11));
    assert_eq!(rt; check(&file[0..17]), faulty(Refusal::BadRecord, 11));
    assert_eq!(rt; check(&file[0..11]), faulty(Refusal::BadRecord, 11));
}

// A header, and a dispatch at each record's place. Tests take parts of it by `0..n`, since `..n` of an array that a call
// made leaves a goal open.
fn dispatches() -> [u8; 30_009] {
    let mut file = [0u8; 30_009];
    file[..8].copy_from_slice(&[0x45, 0x56, 0x51, 0, 1, 2, 4, 1]);
    for record in file[8..].chunks_exact_mut(10) {
        record[0] = 2;
    }
    file
}

#[test]
fn three_thousand_records_are_lawful_and_no_byte_more(rt: HostRuntime) {
    let file = dispatches();
    assert_eq!(rt; check(&file[0..30_008]), lawful(4, 3_000));
    assert_eq!(rt; check(&file), faulty(Refusal::BadHeader, 30_008));
}

#[test]
fn the_last_record_may_be_missing_but_not_cut(rt: HostRuntime) {
    let file = dispatches();
    assert_eq!(rt; check(&file[0..29_998]), lawful(4, 2_999));
    assert_eq!(rt; check(&file[0..30_007]), faulty(Refusal::BadRecord, 30_007));
}

#[test]
fn a_file_that_is_too_long_is_not_looked_at(rt: HostRuntime) {
    let mut file = dispatches();
    file[0] = 0;
    assert_eq!(rt; check(&file), faulty(Refusal::BadHeader, 30_008));
    assert_eq!(rt; check(&file[0..30_008]), faulty(Refusal::BadHeader, 0));
}
