// A status with what is written before it, and the writing.
ghost use Rattle.std.specs.Prelude.{◌≡◌, [], length};
ghost use Rattle.dpl_run.specs.Errors as errors;
ghost use Rattle.dpl_run.specs.Telling.{IsTold};

use crate::status::Status;
use dpl_ext::{Sink, write_all};
use dpl_layer::LayerError;
use std::alloc::Global;

/// A status, and what is written before it is answered.
#[derive(Drop)]
pub struct Due {
    pub status: Status,
    pub output: Vec<u8>,
}

/// A status before which nothing is written.
pub fn bare(alloc: Global, status: Status) -> Due
    ensures status { result.status ≡ status }
    ensures output { result.output.items ≡ [] }
{
    Due {
        status,
        output: Vec::new(alloc),
    }
}

/// A refusal of the work.
pub fn refused(alloc: Global, error: LayerError) -> Due
    ensures status { result.status ≡ errors.status_of error }
    ensures output { result.output.items ≡ [] }
{
    bare(alloc, status_of(error))
}

/// A failed step of the work as a status.
pub fn status_of(error: LayerError) -> Status
    ensures { result ≡ errors.status_of error }
{
    match error {
        LayerError::Layout { command, what } => Status::Layout { command, what },
        LayerError::Limit { kind, count } => Status::Limit { kind, count },
        LayerError::NoMemory => Status::NoMemory,
    }
}

/// Writes the output, and gives the status, or says that the writing failed.
pub fn tell<O: Sink>(out: &mut O, due: &Due) -> Status
    ensures { IsTold due.now.status due.now.output.items (O.taken out.old) (O.taken out.new)
        (O.faults out.old) (O.faults out.new) result }
{
    if due.output.is_empty() {
        return due.status;
    }
    match write_all(out, due.output.as_slice()) {
        Ok(()) => due.status,
        Err(_) => Status::WriteFault,
    }
}
