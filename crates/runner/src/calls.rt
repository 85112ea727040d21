// From the records of a file to the calls that they stand for.
ghost use Rattle.std.specs.Prelude.{◌≡◌, [], IfOk};
ghost use Rattle.runner.specs.Calls.{call_for};
ghost use Rattle.runner.specs.Files.{CallsOf};
ghost use Rattle.steps.specs.Progress.{HasRead};

use dispatcher::call::Call;
use std::alloc::{AllocError, Global};
use steps::fault::Fault;
use steps::posted::Posted;
use steps::records::Records;
use steps::step::Step;

// The calls of a file whose header has been read, and its fault, if it has one.
pub(crate) fn read_calls<M: Posted>(
    heap: Global,
    mut records: Records<M>,
) -> Result<(Vec<Call<M>>, Option<Fault>), AllocError>
    requires { HasRead M.Posted.format records [] }
    ensures { IfOk result (λ out. CallsOf M.Posted.format records.entry.file.now records.entry.header out.0.items out.1) }
{
    let mut calls = Vec::new(heap);
    calls.push(Call::Open(0, 0))?;
    // The reader is no iterator, since it gives a fault again and again; so the loop is written out.
    loop {
        match records.next() {
            Ok(Some(record)) => calls.push(call_of(record.step))?,
            Ok(None) => {
                calls.push(Call::Ask)?;
                return Ok((calls, None));
            }
            Err(fault) => return Ok((calls, Some(fault))),
        }
    }
}

// The call that a step stands for. Both types are of other crates, so it cannot be a `From`; and a step is what a file
// says, so it is told apart by `match`.
fn call_of<M: Copy>(step: Step<M>) -> Call<M>
    ensures { result ≡ call_for step }
{
    match step {
        Step::Post(message) => Call::Post(message),
        Step::Dispatch => Call::Dispatch,
        Step::Turn(cycle) => Call::Turn(cycle),
        Step::Name => Call::Name,
        Step::Warn(services) => Call::Warn(services),
    }
}
