use kripke::refusal::{Error, Refusal};
use std::alloc::AllocError;

// Why a job has no answer of its own.
#[derive(Clone, Copy)]
pub(crate) enum Failure {
    // The job does not parse.
    Bad,
    // A model that it takes is refused.
    Model(Refusal),
    Memory,
}

impl From<Error> for Failure {
    fn from(error: Error) -> Failure {
        match error {
            Error::Refused(refusal) => Failure::Model(refusal),
            Error::Memory => Failure::Memory,
        }
    }
}

impl From<AllocError> for Failure {
    fn from(_: AllocError) -> Failure {
        Failure::Memory
    }
}
