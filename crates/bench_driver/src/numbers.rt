// What a call answered, as one number, and many such numbers as one.
ghost use Rattle.std.specs.Prelude.{◌≡◌, ◌+◌, ◌*◌, ◌%◌, ◌^◌};
ghost use Rattle.bench_driver.specs.Numbers.{halved, mixed, number_of_entry, number_told};

use dispatcher::entry::Entry;
use messages::note::Note;
use messages::refusal::Refusal;

// What is told of an opening, of a dispatch of nothing and of a naming of nothing: numbers that no refusal has.
pub(crate) const OPENED: u64 = 32;

pub(crate) const NONE_DISPATCHED: u64 = 33;

pub(crate) const NONE_NAMED: u64 = 34;

// One number more in a checksum.
pub(crate) fn mix(sum: u64, number: u64) -> u64
    ensures { result ≡ mixed sum number }
{
    sum.wrapping_mul(31).wrapping_add(number)
}

// Two numbers as one, the first in the upper half.
pub(crate) fn halves(upper: u32, lower: u64) -> u64
    ensures { result ≡ halved upper lower }
{
    (u64::from(upper) << 32).wrapping_add(lower)
}

// An entry: its deadline in the upper half, and in the lower its receipt, to which its payload is added.
pub(crate) fn entry_number(entry: Entry<Note>) -> u64
    ensures { result ≡ number_of_entry entry }
{
    halves(
        entry.deadline,
        u64::from(entry.receipt) + u64::from(entry.message.payload),
    )
}

// The number of what was answered, or of why it was refused.
pub(crate) fn told(answer: Result<u64, Refusal>) -> u64
    ensures { result ≡ number_told answer }
{
    answer.unwrap_or_else(|refusal| u64::from(refusal.number()))
}
