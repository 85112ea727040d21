// Each step, stage and kind, with the values that its bytes say.
use crate::outcomes::unlawful_at;
use messages::note::{Note, NoteKind};
use messages::pen::{PenMessage, Stage};
use std::test::Fail;
use steps::records::Record;
use steps::step::Step;
use steps::steps_file::StepsFile;

#[test]
fn pen_posts(rt: HostRuntime) {
    for (byte, stage) in [(1u8, Stage::Down), (2, Stage::Sample), (3, Stage::Up)] {
        let record = [1u8, 255, byte, 0, 1, 2, 3, 4, 5, 6];
        let message = PenMessage {
            pad: 255,
            stage,
            x: 0x0102,
            y: 0x0304,
            force: 0x0506,
        };
        assert_eq!(rt; Step::<PenMessage>::read(&record), Ok(Step::Post(message)));
    }
}

#[test]
fn unknown_stages_and_kinds(rt: HostRuntime) {
    for stage in [0u8, 4, 255] {
        let record = [1u8, 7, stage, 0, 0, 0, 0, 0, 0, 0];
        assert_eq!(rt; Step::<PenMessage>::read(&record), unlawful_at(2));
    }
    for kind in [0u8, 10, 14, 255] {
        let record = [1u8, 7, 0, kind, 0, 0, 0, 0, 0, 0];
        assert_eq!(rt; Step::<Note>::read(&record), unlawful_at(3));
    }
}

#[test]
fn note_posts(rt: HostRuntime) {
    let kinds = [
        (11u8, NoteKind::PageKey),
        (12, NoteKind::RaisedHand),
        (13, NoteKind::Tilt),
    ];
    for (byte, kind) in kinds {
        for interval in [0u8, 1, 127, 128, 255] {
            let record = [1u8, 0, interval, byte, 0xde, 0xad, 0xbe, 0xef, 0, 0];
            let note = Note {
                pad: 0,
                kind,
                interval,
                payload: 0xdead_beef,
            };
            assert_eq!(rt; Step::<Note>::read(&record), Ok(Step::Post(note)));
        }
    }
}

#[test]
fn steps_without_a_message(rt: HostRuntime) {
    let records = [
        ([2u8, 0, 0, 0, 0, 0, 0, 0, 0, 0], Step::Dispatch),
        (
            [3, 0, 0, 0, 0x01, 0x02, 0x03, 0x04, 0, 0],
            Step::Turn(0x0102_0304),
        ),
        ([4, 0, 0, 0, 0, 0, 0, 0, 0, 0], Step::Name),
        (
            [5, 0, 0, 0, 0xff, 0xff, 0xff, 0xff, 0, 0],
            Step::Warn(0xffff_ffff),
        ),
    ];
    for (record, step) in records {
        assert_eq!(rt; Step::<Note>::read(&record), Ok(step));
    }
}

#[test]
fn unknown_steps(rt: HostRuntime) {
    for number in [0u8, 6, 128, 255] {
        let record = [number, 0, 0, 0, 0, 0, 0, 0, 0, 0];
        assert_eq!(rt; Step::<Note>::read(&record), unlawful_at(0));
    }
    assert_eq!(rt; Step::<Note>::read(&[]), unlawful_at(0));
}

#[test]
fn records_come_with_their_bytes_and_offsets(rt: HostRuntime) -> Result<(), Fail> {
    let file = [
        0x45u8, 0x56, 0x51, 0, 1, 1, 2, 2, 2, 0, 0, 0, 0, 0, 0, 0, 0, 0, 3, 0, 0, 0, 0, 0, 0, 9, 0,
        0,
    ];
    let Ok(StepsFile::Pen(mut records)) = StepsFile::open(&file) else {
        return Err(Fail::new("the header is lawful"));
    };
    let first = Record {
        offset: 8,
        bytes: &file[8..18],
        step: Step::Dispatch,
    };
    assert_eq!(rt; records.next(), Ok(Some(first)));
    let second = Record {
        offset: 18,
        bytes: &file[18..28],
        step: Step::Turn(9),
    };
    assert_eq!(rt; records.next(), Ok(Some(second)));
    assert_eq!(rt; records.next(), Ok(None));
    Ok(())
}
