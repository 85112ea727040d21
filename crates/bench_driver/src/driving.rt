// A load on a dispatcher over any bank of notes.
ghost use Rattle.std.specs.Prelude.{◌≡◌};
ghost use Rattle.bench_driver.specs.Loads.{AnswersByte, checksum, note_at, note_interval};
ghost use Rattle.bench_driver.specs.Numbers.{number_told};
ghost use Rattle.dispatcher.specs.Steps.{terms};
ghost use Rattle.dispatcher.specs.Views.{view};

use crate::numbers::{NONE_DISPATCHED, NONE_NAMED, OPENED, entry_number, halves, mix, told};
use banks::bank::Bank;
use dispatcher::dispatcher::Dispatcher;
use messages::note::{Note, NoteKind};
use messages::refusal::Refusal;

fn note(cycle: u32, interval: u8) -> Note
    ensures { result ≡ note_at cycle interval }
{
    Note {
        pad: interval,
        kind: NoteKind::Tilt,
        interval,
        payload: cycle,
    }
}

// Makes the call that the byte stands for, and tells what it answered as a number. Calls are bytes here, and no enum,
// since programs in other languages make the loads.
fn answer<B: Bank<Item = Note>>(dispatcher: &mut Dispatcher<B>, byte: u8) -> Result<u64, Refusal>
    ensures { AnswersByte (view dispatcher.old) (view dispatcher.new) byte (number_told result) }
{
    match byte {
        0 => Ok(dispatcher.dispatch()?.map_or(NONE_DISPATCHED, entry_number)),
        interval if interval < 128 => {
            let message = note(dispatcher.cycle(), interval);
            let slip = dispatcher.post(message)?;
            Ok(entry_number(slip.entry(message)))
        }
        128 => {
            let next = dispatcher.cycle() + 1;
            let late = dispatcher.turn(next)?;
            Ok(halves(next, late as u64))
        }
        129 => Ok(dispatcher.name()?.map_or(NONE_NAMED, entry_number)),
        _ => {
            let figures = dispatcher.ask();
            Ok(mix(figures.pending as u64, figures.waiting as u64))
        }
    }
}

// Makes the calls of a load on a new dispatcher over the bank, one after another.
#[tactic(auto, using(crate::proofs::Loading::summed_next))]
pub(crate) fn drive<B: Bank<Item = Note> + Drop>(bank: B, load: &[u8]) -> u64
    ensures { result ≡ checksum (terms B.Trays note_interval bank) load.now }
{
    let mut dispatcher = Dispatcher::new(bank);
    let mut sum = mix(0, told(dispatcher.open(0, 0).map(|()| OPENED)));
    for byte in load {
        sum = mix(sum, told(answer(&mut dispatcher, *byte)));
    }
    sum
}
