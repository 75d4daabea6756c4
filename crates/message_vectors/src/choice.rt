// What the words of a line choose: a seal, kinds, the number of a message.
use crate::answer::Answered;
use cases::{Fault, array, number};
use kinds::Kind;
use message::Seal;
use seals::{ClosedSeal, OpenSeal};
use std::alloc::Global;

// What is left of a case once its seal is chosen.
pub(crate) trait Sealed: Drop {
    fn answered<S: Seal>(self, heap: Global, seal: &S) -> Result<Answered, Fault>;
}

// What a case gives under the seal of that name, key and session ID.
pub(crate) fn under<C: Sealed>(
    heap: Global,
    [seal, key, session]: [&str; 3],
    case: C,
) -> Result<Answered, Fault> {
    let key = array(heap, key)?;
    let session = array(heap, session)?;
    match seal {
        "closed" => case.answered(heap, &ClosedSeal::new(&key, &session)),
        "open" => case.answered(heap, &OpenSeal::new(&key, &session)),
        _ => Err(Fault::Form),
    }
}

// Functions and no conversions, since the bytes of a word need the heap.
pub(crate) fn kind_of(heap: Global, word: &str) -> Result<Kind, Fault> {
    let code = u16::from_be_bytes(array(heap, word)?);
    Kind::try_from(code).map_err(|_| Fault::Form)
}

pub(crate) fn kinds_of(heap: Global, word: &str) -> Result<Vec<Kind>, Fault> {
    if word == "-" {
        return Ok(Vec::new(heap));
    }
    word.split(',')
        .map(|code| kind_of(heap, code))
        .try_collect(heap)
}

pub(crate) fn number_of(word: &str) -> Result<u16, Fault> {
    u16::try_from(number(word)?).map_err(|_| Fault::Length(2))
}
