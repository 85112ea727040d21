// Rounds driven one after another.
use crate::steps::{begin, note};
use banks::bank::Bank;
use banks::cell::Cell;
use chains::chain_bank::ChainBank;
use dispatcher::dispatcher::Dispatcher;
use dispatcher::entry::Figures;
use messages::note::Note;
use messages::refusal::Refusal;
use phases::drive::drive;
use phases::phase::Report;
use phases::refused::Refused;
use phases::round::Round;
use phases::stop::{Held, Stop};
use rows::row_bank::RowBank;
use std::process::Abort;
use std::test::Fail;

// Where driving ended: the round in which it stopped and why, if it did, and the cycle of the phase.
#[derive(Debug, PartialEq, Drop)]
struct End {
    stopped: Option<(usize, Refusal)>,
    cycle: u32,
}

fn end_of(driven: Result<Report, Stop>) -> End {
    match driven {
        Ok(report) => End {
            stopped: None,
            cycle: report.finish(),
        },
        Err(Stop { round, held }) => {
            let (refusal, cycle) = match held {
                Held::InReport(Refused { phase, refusal }) => (refusal, phase.finish()),
                Held::InOutput(Refused { phase, refusal }) => (refusal, phase.finish()),
            };
            End {
                stopped: Some((round, refusal)),
                cycle,
            }
        }
    }
}

// Drives a new dispatcher, opened at cycle 0, and tells where it ended and how things stand.
fn driven<B: Bank<Item = Note> + Drop>(
    rt: &impl Abort,
    bank: B,
    rounds: &[Round<Note>],
) -> Result<(End, Figures), Fail> {
    let mut dispatcher = Dispatcher::new(bank);
    assert_eq!(rt; dispatcher.open(0, 0), Ok(()));
    let report = begin(&mut dispatcher)?;
    let end = end_of(drive(report, &mut dispatcher, rounds));
    Ok((end, dispatcher.ask()))
}

// Three cycles: of two notes of interval 1 and one of interval 2, one is dispatched in each of two cycles, so one note is
// late at the turn to 1, and is named by the second round.
#[test]
fn three_rounds_over_a_row_bank(rt: HostRuntime) -> Result<(), Fail> {
    let notes = [note(1), note(1), note(2)];
    let rounds = [round(&notes, 1, 1), round(&[], 1, 2), round(&[], 1, 3)];
    let (end, figures) = driven(&rt, RowBank::new(&mut [Cell::default(); 16], 4), &rounds)?;
    assert_eq!(rt;
        end,
        End {
            stopped: None,
            cycle: 3
        }
    );
    assert_eq!(rt; figures.accepted, 3);
    assert_eq!(rt; figures.dispatched, 2);
    assert_eq!(rt; figures.late, 1);
    assert_eq!(rt; figures.waiting, 0);
    Ok(())
}

// The timer's second cycle is wrong: the drive stops in the output phase of cycle 1.
#[test]
fn a_wrong_cycle_stops_the_drive(rt: HostRuntime) -> Result<(), Fail> {
    let notes = [note(3)];
    let rounds = [
        round(&notes, 0, 1),
        round(&notes, 2, 7),
        round(&notes, 0, 2),
    ];
    let (end, figures) = driven(&rt, ChainBank::new(&mut [Cell::default(); 16], 4), &rounds)?;
    assert_eq!(rt; end.stopped, Some((1, Refusal::NotNextCycle)));
    assert_eq!(rt; end.cycle, 1);
    assert_eq!(rt; figures.accepted, 2);
    assert_eq!(rt; figures.dispatched, 2);
    Ok(())
}

fn round(messages: &[Note], dispatches: u32, cycle: u32) -> Round<Note> {
    Round {
        messages,
        services: 1,
        dispatches,
        cycle,
    }
}
