// Making the listing of a steps file.
ghost use Rattle.std.specs.Prelude.{◌≡◌, ℕ, ◌≤◌, List, [], length, MatchResult};
ghost use Rattle.dispatcher.specs.Steps.{terms};
ghost use Rattle.runner.specs.Answers.{Lists, ListsHeaderFault, output_size};
ghost use Rattle.runner.specs.Files.{HasHeader};
ghost use Rattle.runner.specs.Listings.{IsListing, ListsSteps, listing_over};
ghost use Rattle.runner.specs.Output.{Holds};
ghost use Rattle.runner.specs.Room.{BriefFault, FewCalls};
ghost use Rattle.steps.specs.Progress.{HasRead};

use super::Unlisted;
use crate::calls::read_calls;
use crate::lines::{write_events, write_fault};
use banks::bank::Bank;
use banks::cell::Cell;
use chains::chain_bank::ChainBank;
use dispatcher::call::Call;
use dispatcher::dispatcher::running::run;
use messages::message::{Message, Timed};
use messages::refusal::Refusal;
use rows::row_bank::RowBank;
use std::alloc::{AllocError, Global};
use steps::fault::Fault;
use steps::header::BankKind;
use steps::posted::Posted;
use steps::records::Records;
use steps::steps_file::StepsFile;

// An output of so many bytes holds every listing.
pub const OUTPUT: usize = 65_536;

// The line of a fault in the header has at most so many bytes.
pub const FAULT_LINE: usize = 11;

// How many cells the lesson's bank has.
const CELLS: usize = 256;

// Runs the steps of a file and writes what happened to the start of the output; answers how many bytes that took.
pub fn list(heap: Global, file: &[u8], out: &mut [u8]) -> Result<usize, Unlisted>
    ensures { Lists file.now out.old out.new result }
{
    if out.len() < OUTPUT {
        return Err(Unlisted::Refused(Refusal::OutputTooShort));
    }
    Ok(list_file(heap, file, out)?)
}

// The same for a file whose header is unlawful, whose listing is one line: it wants no memory, and of the output no more than
// that line. None for another file, and then nothing is written.
pub fn list_header_fault(file: &[u8], out: &mut [u8; FAULT_LINE]) -> Option<usize>
    ensures { ListsHeaderFault file.now out.old out.new result }
{
    match StepsFile::open(file) {
        Ok(_) => None,
        Err(fault) => Some(write_fault(out, 0, Some(fault))),
    }
}

// The listing of any file, into an output that is long enough.
fn list_file(heap: Global, file: &[u8], out: &mut [u8]) -> Result<usize, AllocError>
    requires { output_size ≤ length out.old }
    ensures { MatchResult result (λ n. (text : List ℕ) × IsListing file.now text × Holds text out.old out.new n) (λ _. HasHeader file.now × (out.new ≡ out.old)) }
{
    match StepsFile::open(file) {
        Ok(StepsFile::Pen(records)) => play(heap, records, &mut [Cell::default(); CELLS], out),
        Ok(StepsFile::Note(records)) => play(heap, records, &mut [Cell::default(); CELLS], out),
        Err(fault) => Ok(write_fault(out, 0, Some(fault))),
    }
}

// Runs the records over the bank that the header asks for.
fn play<M: Posted>(
    heap: Global,
    records: Records<M>,
    cells: &mut [Cell<M>],
    out: &mut [u8],
) -> Result<usize, AllocError>
    requires begun { HasRead M.Posted.format records [] }
    requires cells { length cells.old ≡ 256 }
    requires room { output_size ≤ length out.old }
    ensures { MatchResult result (λ n. (text : List ℕ) × ListsSteps (record { format = M.Posted.format; pad = M.Message.pad; kind = M.Message.kind; interval = M.Timed.interval }) records.entry.file.now text × Holds text out.old out.new n) (λ _. out.new ≡ out.old) }
{
    let header = records.header();
    let trays = usize::from(header.trays);
    let (calls, fault) = read_calls(heap, records)?;
    match header.bank {
        BankKind::Row => list_run(
            heap,
            RowBank::new(cells, trays),
            calls.as_slice(),
            fault,
            out,
        ),
        BankKind::Chain => list_run(
            heap,
            ChainBank::new(cells, trays),
            calls.as_slice(),
            fault,
            out,
        ),
    }
}

// Makes the calls, and then writes the line of each event and that of the fault. Once the calls were made nothing can fail:
// the lines are written straight to the output, and want no memory.
fn list_run<B: Bank + Drop>(
    heap: Global,
    bank: B,
    calls: &[Call<B::Item>],
    fault: Option<Fault>,
    out: &mut [u8],
) -> Result<usize, AllocError>
where
    B::Item: Timed,
    requires few { FewCalls calls.now }
    requires brief { BriefFault fault }
    requires room { output_size ≤ length out.old }
    ensures { MatchResult result (Holds (listing_over B.Item.Message.pad B.Item.Message.kind (terms B.Trays B.Item.Timed.interval bank) calls.now fault) out.old out.new) (λ _. out.new ≡ out.old) }
{
    let (_dispatcher, events) = run(heap, bank, calls)?;
    let end = write_events(out, events.as_slice());
    Ok(write_fault(out, end, fault))
}
