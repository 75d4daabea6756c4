// Numbers, digests, names and causes.
use crate::answer::Answered;
use cases::{Fault, bytes, number};
use causes::Cause;
use numerals::Unsigned;
use std::alloc::Global;

// A number of the type N.
pub(crate) fn decimal<N: Unsigned + Into<u64>>(
    heap: Global,
    word: &str,
) -> Result<Answered, Fault> {
    match numerals::decimal::<N>(&bytes(heap, word)?) {
        Some(n) => Ok(Answered::Number(n.into())),
        None => Ok(Answered::Nothing),
    }
}

pub(crate) fn digest(heap: Global, word: &str) -> Result<Answered, Fault> {
    match numerals::digest(&bytes(heap, word)?) {
        Some(digest) => Ok(Answered::Bytes(digest.to_vec(heap)?)),
        None => Ok(Answered::Nothing),
    }
}

pub(crate) fn name(heap: Global, word: &str) -> Result<Answered, Fault> {
    Ok(Answered::Truth(names::is_name(&bytes(heap, word)?)))
}

pub(crate) fn user(heap: Global, word: &str) -> Result<Answered, Fault> {
    Ok(Answered::Truth(names::is_user(&bytes(heap, word)?)))
}

// The words of the cause of a number.
pub(crate) fn cause(heap: Global, word: &str) -> Result<Answered, Fault> {
    let number = u8::try_from(number(word)?).map_err(|_| Fault::Length(1))?;
    match Cause::try_from(number) {
        Ok(cause) => Ok(Answered::Bytes(cause.word().to_vec(heap)?)),
        Err(_) => Ok(Answered::Nothing),
    }
}

// The number of the cause of some words.
pub(crate) fn cause_word(heap: Global, word: &str) -> Result<Answered, Fault> {
    match Cause::try_from(bytes(heap, word)?.as_slice()) {
        Ok(cause) => Ok(Answered::Number(u64::from(cause.number()))),
        Err(_) => Ok(Answered::Nothing),
    }
}
