// Outputs of just the size that holds every listing, of one byte less and of more.
use messages::refusal::Refusal;
use runner::listing::{FAULT_LINE, OUTPUT, Unlisted, list, list_header_fault};
use std::process::Abort;
use std::test::Fail;

// Notes over a row bank of four trays: a post, a turn and a dispatch.
const LESSON: [u8; 38] = [
    0x45, 0x56, 0x51, 0, 1, 2, 4, 1, //
    1, 7, 2, 13, 0, 0, 0, 0, 0, 0, //
    3, 0, 0, 0, 0, 0, 0, 1, 0, 0, //
    2, 0, 0, 0, 0, 0, 0, 0, 0, 0,
];

// What the output holds before the listing is written.
const OLD: u8 = 7;

// Lists the file into an output of `size` bytes, and checks what it begins with and that the rest is as it was.
fn lists(
    rt: &(impl Abort + AllocGlobal),
    file: &[u8],
    size: usize,
    expected: &[u8],
) -> Result<(), Fail> {
    let mut out = vec![in rt.alloc(); OLD; size]?;
    let length = list(rt.alloc(), file, out.as_mut_slice()).map_err(|_| Fail::new("no listing"))?;
    assert_eq!(rt; length, expected.len());
    let (listing, rest) = out.as_slice().split_at(length);
    assert_eq!(rt; listing, expected);
    assert!(rt; rest.iter().all(|byte| *byte == OLD));
    Ok(())
}

#[test]
fn an_output_of_65536_bytes_is_enough(rt: HostRuntime) -> Result<(), Fail> {
    lists(
        &rt,
        &LESSON,
        OUTPUT,
        b"P 0 2\nT 1 0\nD 0 2 7 13\nE 1 1 0 0 0\n",
    )
}

#[test]
fn a_longer_output_is_left_as_it_was_behind_the_listing(rt: HostRuntime) -> Result<(), Fail> {
    lists(
        &rt,
        &LESSON,
        OUTPUT + 100,
        b"P 0 2\nT 1 0\nD 0 2 7 13\nE 1 1 0 0 0\n",
    )
}

#[test]
fn a_fault_in_a_record_ends_the_listing(rt: HostRuntime) -> Result<(), Fail> {
    lists(&rt, &LESSON[0..30], OUTPUT, b"P 0 2\nT 1 0\nF 14 30\n")
}

#[test]
fn a_fault_in_the_header_is_all(rt: HostRuntime) -> Result<(), Fail> {
    lists(&rt, &LESSON[0..4], OUTPUT, b"F 13 4\n")
}

#[test]
fn a_fault_in_the_header_is_told_in_eleven_bytes(rt: HostRuntime) {
    let mut line = [OLD; FAULT_LINE];
    assert_eq!(rt; list_header_fault(&LESSON[0..5], &mut line), Some(7));
    assert_eq!(rt; line, *b"F 13 5\n\x07\x07\x07\x07");
}

#[test]
fn a_file_with_a_lawful_header_is_not_told_as_its_fault(rt: HostRuntime) {
    let mut line = [OLD; FAULT_LINE];
    assert_eq!(rt; list_header_fault(&LESSON[0..30], &mut line), None);
    assert_eq!(rt; line, [OLD; FAULT_LINE]);
}

#[test]
fn an_output_of_65535_bytes_is_refused_and_left(rt: HostRuntime) -> Result<(), Fail> {
    let mut out = vec![in rt.alloc(); OLD; OUTPUT - 1]?;
    let answer = list(rt.alloc(), &LESSON, out.as_mut_slice());
    assert_eq!(rt; answer, Err(Unlisted::Refused(Refusal::OutputTooShort)));
    assert!(rt; out.as_slice().iter().all(|byte| *byte == OLD));
    Ok(())
}
