// Bytes that the format does not mention have to be 0.
use crate::outcomes::{unlawful_at, with_byte};
use messages::note::Note;
use messages::pen::PenMessage;
use steps::step::Step;

#[test]
fn of_steps_without_a_message(rt: HostRuntime) {
    for number in [2u8, 4] {
        let record = [number, 0, 0, 0, 0, 0, 0, 0, 0, 0];
        for place in 1usize..10 {
            assert_eq!(rt;
                Step::<Note>::read(&with_byte(record, place, 1)),
                unlawful_at(place)
            );
        }
    }
    for number in [3u8, 5] {
        let record = [number, 0, 0, 0, 1, 2, 3, 4, 0, 0];
        for place in [1usize, 2, 3, 8, 9] {
            assert_eq!(rt;
                Step::<Note>::read(&with_byte(record, place, 1)),
                unlawful_at(place)
            );
        }
    }
}

#[test]
fn of_posts(rt: HostRuntime) {
    let pen = [1u8, 7, 1, 0, 0, 0, 0, 0, 0, 0];
    assert_eq!(rt;
        Step::<PenMessage>::read(&with_byte(pen, 3, 1)),
        unlawful_at(3)
    );
    let note = [1u8, 7, 1, 11, 0, 0, 0, 0, 0, 0];
    assert_eq!(rt; Step::<Note>::read(&with_byte(note, 8, 1)), unlawful_at(8));
    assert_eq!(rt; Step::<Note>::read(&with_byte(note, 9, 1)), unlawful_at(9));
}
