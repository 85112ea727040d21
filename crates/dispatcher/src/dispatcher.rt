// What a dispatcher holds.
ghost use Rattle.std.specs.Prelude.{◌≤◌};

use crate::ring::Ring;
use banks::bank::Bank;
use messages::message::Timed;

pub mod calls;
pub mod questions;
pub mod running;

// A bank, and the dispatcher's own numbers. Entries lie in the bank and nowhere else, each in the tray of its deadline
// cycle. That the numbers agree with the bank is said by each call's contract: as a ghost field it would have to hold after
// each assignment of a call.
#[derive(Drop)]
pub struct Dispatcher<B: Bank>
where
    B::Item: Timed,
{
    bank: B,
    // the bank's trays as a ring, once the dispatcher is open
    ring: Option<Ring>,
    // whether a cycle has been begun
    begun: bool,
    cycle: u32,
    // the next receipt
    receipt: u32,
    accepted: usize,
    dispatched: usize,
    late: usize,
    ghost early: { cycle ≤ 4000000000 },
    ghost few: { receipt ≤ 4000000000 },
}
