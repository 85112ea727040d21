// What any bank has to do.
use banks::bank::Bank;
use messages::note::Note;
use messages::refusal::Refusal;
use std::process::Abort;
use std::test::Fail;

// Fills one tray until a put is refused, as the next is too, and takes all out again, in order. Answers how many went in.
pub(crate) fn fill_and_empty<B: Bank<Item = Note>>(
    rt: &impl Abort,
    bank: &mut B,
    tray: usize,
) -> Result<usize, Fail> {
    let (placed, refusal) = (0u32..2_000)
        .find_map(|receipt| {
            let refused = bank.put(tray, receipt, Note::default()).err();
            refused.map(|refusal| (receipt, refusal))
        })
        .ok_or_else(|| Fail::new("no put was refused"))?;
    assert_eq!(rt; refusal, Refusal::Full);
    assert_eq!(rt; bank.put(tray, 2_000, Note::default()), Err(Refusal::Full));
    let held = bank.count(tray);
    for receipt in 0..placed {
        let cell = bank
            .take(tray)
            .ok_or_else(|| Fail::new("a cell is missing"))?;
        assert_eq!(rt; cell.receipt, receipt);
    }
    assert!(rt; bank.take(tray).is_none());
    assert_eq!(rt; bank.total(), 0);
    Ok(held)
}

// Puts a cell into each tray and takes them out again, for many rounds, so that each tray goes round its row's end.
pub(crate) fn interleave<B: Bank<Item = Note>>(
    rt: &impl Abort,
    bank: &mut B,
    rounds: u32,
) -> Result<(), Fail> {
    let trays = bank.tray_count();
    for round in 0..rounds {
        for tray in 0..trays {
            assert_eq!(rt; bank.put(tray, round, Note::default()), Ok(()));
        }
        assert_eq!(rt; bank.total(), trays);
        for tray in 0..trays {
            let cell = bank
                .take(tray)
                .ok_or_else(|| Fail::new("a tray lost its cell"))?;
            assert_eq!(rt; cell.receipt, round);
        }
        assert_eq!(rt; bank.total(), 0);
    }
    Ok(())
}

// A tray that does not exist holds nothing, gives nothing and takes nothing.
pub(crate) fn no_such_tray<B: Bank<Item = Note>>(rt: &impl Abort, bank: &mut B, tray: usize) {
    let held = bank.total();
    assert_eq!(rt;
        bank.put(tray, 7, Note::default()),
        Err(Refusal::NoSuchTray)
    );
    assert!(rt; bank.take(tray).is_none());
    assert_eq!(rt; bank.count(tray), 0);
    assert_eq!(rt; bank.total(), held);
}

// The number of trays of a bank and both its limits.
#[derive(Clone, Copy, Debug, PartialEq, Eq)]
pub(crate) struct Measured {
    pub trays: usize,
    pub tray_limit: usize,
    pub total_limit: usize,
}

pub(crate) fn measures<B: Bank<Item = Note>>(bank: &B) -> Measured {
    Measured {
        trays: bank.tray_count(),
        tray_limit: bank.tray_limit(),
        total_limit: bank.total_limit(),
    }
}
