// Why a call is refused: one list for every part of the hub.
ghost use Rattle.std.specs.Prelude.{◌≡◌};
ghost use Rattle.messages.specs.Refusals.{refusal_number};

use thiserror::Error;

// Each reason has a number of its own, by which listings and other programs know it.
#[derive(Clone, Copy, Debug, PartialEq, Eq, Error)]
pub enum Refusal {
    #[error("the dispatcher has not been opened")]
    Shut = 1,
    #[error("the dispatcher has been opened before")]
    AlreadyOpen = 2,
    #[error("a first cycle or a first receipt over 4,000,000,000")]
    StartTooHigh = 3,
    #[error("a bank of fewer than two trays, or one that holds a cell")]
    UnfitBank = 4,
    #[error("an interval of 0, or of more cycles than there are trays less one")]
    IntervalOutOfRange = 5,
    #[error("the tray is full, or the bank is")]
    Full = 6,
    #[error("the next receipt is 4,000,000,000, so none is left to give")]
    ReceiptsUsedUp = 7,
    #[error("the timer's cycle is not the next one")]
    NotNextCycle = 8,
    #[error("late messages wait to be named")]
    LateWaiting = 9,
    #[error("the next cycle would be over 4,000,000,000")]
    CyclesUsedUp = 10,
    #[error("a phase of another cycle, or a second beginning")]
    OutOfPhase = 11,
    #[error("a warning told more than 1,000 services")]
    TooManyServices = 12,
    #[error("the header of a steps file is unlawful, or the file is too long")]
    BadHeader = 13,
    #[error("a record of a steps file is unlawful or cut short")]
    BadRecord = 14,
    #[error("the bank has no such tray")]
    NoSuchTray = 15,
    #[error("the output has fewer than 65,536 bytes")]
    OutputTooShort = 16,
}

impl Refusal {
    // The number, for listings and other programs.
    pub fn number(self) -> u8
        ensures { result ≡ refusal_number self }
    {
        self as u8
    }
}
