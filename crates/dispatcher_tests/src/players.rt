// Plays a list of calls on a new dispatcher over any bank, and looks at each answer.
use banks::bank::Bank;
use dispatcher::call::Call;
use dispatcher::dispatcher::running::run;
use dispatcher::entry::Entry;
use dispatcher::event::Event;
use messages::note::{Note, NoteKind};
use std::process::Abort;
use std::test::Fail;

// A tilt note of pad 7. The tests of the phases make their own: a crate for two small functions would be no plainer.
pub(crate) fn note(interval: u8) -> Note {
    Note {
        pad: 7,
        kind: NoteKind::Tilt,
        interval,
        payload: 0,
    }
}

// Such a note as an entry.
pub(crate) fn entry(receipt: u32, interval: u8, deadline: u32) -> Entry<Note> {
    Entry {
        receipt,
        message: note(interval),
        deadline,
    }
}

// Makes the calls, and checks that each is answered as expected.
pub(crate) fn play<B: Bank<Item = Note> + Drop>(
    rt: &(impl Abort + AllocGlobal),
    bank: B,
    calls: &[Call<Note>],
    expected: &[Event<Note>],
) -> Result<(), Fail> {
    let (_, events) = run(rt.alloc(), bank, calls)?;
    assert_eq!(rt; events.as_slice(), expected);
    Ok(())
}
