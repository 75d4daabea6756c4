// Why a text could not be exchanged.
use fields::{TextRefusal, WrongField};
use std::io;
use thiserror::Error;

#[derive(Debug, Drop, Error)]
pub enum TextFailure {
    // not written
    #[error("refusal {}", .0.number())]
    Refused(#[from] TextRefusal),
    // not read
    #[error("refusal {}: field {} at {}", .0.number(), .0.field, .0.place)]
    Wrong(#[from] WrongField),
    #[error("what was read is not what was written")]
    Unlike,
    #[error("nothing can be printed")]
    Print(#[from] io::Error),
}
