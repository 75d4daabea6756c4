// Why a file could not be carried over.
use fragments::FragmentRefusal;
use kinds::MessageRefusal;
use std::alloc::AllocError;
use thiserror::Error;

#[derive(Debug, Drop, Error)]
pub enum Failure {
    #[error("out of memory")]
    Memory(#[from(alloc)] AllocError),
    #[error("no fragment of the file is due")]
    NothingDue,
    #[error("refusal {}", .0.number())]
    Refused(#[from] FragmentRefusal),
    #[error("refusal {}", .0.number())]
    Message(#[from] MessageRefusal),
    #[error("what was opened is not what was sealed")]
    Altered,
}
