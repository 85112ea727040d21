// The first put into a bank.
ghost use Rattle.std.specs.Prelude.{◌≡◌, ◌<◌, length, Ok};
ghost use Rattle.banks.specs.Trays.{Puts, held_in};

use crate::bank::Bank;
use messages::refusal::Refusal;

// A put as any other, told as the trait tells it. Into an existing tray of an empty bank it is never refused, whatever the bank.
pub fn first_put<B: Bank>(
    bank: &mut B,
    tray: usize,
    receipt: u32,
    message: B::Item,
) -> Result<(), Refusal>
    ensures puts { Puts B.Trays.trays B.Trays.tray_limit B.Trays.total_limit bank.old bank.new tray (record { receipt = receipt; message = message }) result }
    ensures accepted { held_in (B.Trays.trays bank.old) ≡ 0 → tray < length (B.Trays.trays bank.old) → result ≡ Ok tt }
{
    bank.put(tray, receipt, message)
}
