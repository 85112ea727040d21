// What a reader is shown of steps, records and faults.
ghost use Rattle.std.specs.Prelude.{◌++◌, Some, codes, decimal};
ghost use Rattle.std.specs.Fmt.{option_append};
ghost use Rattle.steps.specs.Texts.{fault_text, record_text, step_text};

use crate::fault::Fault;
use crate::records::Record;
use crate::step::Step;
use std::error::Error;
use std::fmt;

// What the step says: "post" with the message, "dispatch", "turn to" with the cycle, "name", or "warn" with the services.
impl<M: fmt::Display> fmt::Display for Step<M> {
    ghost output = { λ s. step_text M.Display.output s };

    fn fmt<W: fmt::Write>(&self, f: &mut fmt::Formatter<W>) -> fmt::Result {
        match self {
            Step::Post(message) => write!(f, "post {message}"),
            Step::Dispatch => write!(f, "dispatch"),
            Step::Turn(cycle) => write!(f, "turn to {cycle}"),
            Step::Name => write!(f, "name"),
            Step::Warn(services) => write!(f, "warn {services}"),
        }
    }
}

// The record's offset and what its step says.
impl<M: fmt::Display> fmt::Display for Record<'_, M> {
    ghost output = { λ r. record_text M.Display.output r };

    fn fmt<W: fmt::Write>(&self, f: &mut fmt::Formatter<W>) -> fmt::Result {
        write!(f, "{} {}", self.offset, self.step)
    }
}

// "F" with the refusal's number and the offset. By hand, since a derive would not say what is written.
impl fmt::Display for Fault {
    ghost output = { λ t. Some (fault_text t) };

    fn fmt<W: fmt::Write>(&self, f: &mut fmt::Formatter<W>) -> fmt::Result {
        write!(f, "F {} {}", self.refusal.number(), self.offset)
    }
}

impl Error for Fault {}
