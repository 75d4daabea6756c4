// Why a line is refused.
ghost use Rattle.std.specs.Prelude.{◌≡◌};
ghost use Rattle.cases.specs.declared.fault.Fault.TheVariants.{Memory};

use std::alloc::{AllocError, AllocFailed};
use thiserror::Error;

#[derive(Clone, Copy, PartialEq, Eq, Debug, Error)]
pub enum Fault {
    #[error("no such form")]
    Form,
    #[error("wrong number of words for this form")]
    Count,
    #[error("an empty word (the empty string is written -)")]
    Empty,
    #[error("an odd number of hexadecimal digits")]
    Odd,
    #[error("byte {0} is no lower-case hexadecimal digit")]
    Digit(u8),
    #[error("not {0} bytes")]
    Length(usize),
    #[error("no number below 4294967296")]
    Number,
    #[error("no memory")]
    Memory,
}

// Written by hand, since clauses name the fault that a `?` makes, and a derived conversion tells them none.
impl From<AllocError> for Fault {
    ghost from_gives = { λ _ r. r ≡ Memory };

    fn from(_e: AllocError) -> Fault {
        Fault::Memory
    }
}

impl<T: Drop> From<AllocFailed<T>> for Fault {
    ghost from_gives = { λ _ r. r ≡ Memory };

    fn from(_e: AllocFailed<T>) -> Fault {
        Fault::Memory
    }
}
