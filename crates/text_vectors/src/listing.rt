// Base64, into lent buffers.
use crate::answer::Answered;
use crate::lent::Lent;
use base64_text::Undecoded;
use cases::{Fault, bytes};
use std::alloc::Global;

fn encoded(plain: &[u8], mut out: Lent) -> Answered {
    match base64_text::encode(plain, &mut out.bytes) {
        Some(size) => out.front(size),
        None => out.unwritten(Answered::Undecoded(Undecoded::NoRoom)),
    }
}

fn decoded(text: &[u8], mut out: Lent) -> Answered {
    match base64_text::decode(text, &mut out.bytes) {
        Ok(size) => out.front(size),
        Err(undecoded) => out.unwritten(Answered::Undecoded(undecoded)),
    }
}

// Into more room than is needed.
pub(crate) fn encode(heap: Global, word: &str) -> Result<Answered, Fault> {
    let plain = bytes(heap, word)?;
    let room = plain.len().saturating_mul(2).saturating_add(4);
    Ok(encoded(&plain, Lent::new(heap, room)?))
}

pub(crate) fn encode_in(heap: Global, room: &str, word: &str) -> Result<Answered, Fault> {
    Ok(encoded(&bytes(heap, word)?, Lent::sized(heap, room)?))
}

// Into as much room as the text has.
pub(crate) fn decode(heap: Global, word: &str) -> Result<Answered, Fault> {
    let text = bytes(heap, word)?;
    Ok(decoded(&text, Lent::new(heap, text.len())?))
}

pub(crate) fn decode_in(heap: Global, room: &str, word: &str) -> Result<Answered, Fault> {
    Ok(decoded(&bytes(heap, word)?, Lent::sized(heap, room)?))
}

pub(crate) fn canonical(heap: Global, word: &str) -> Result<Answered, Fault> {
    Ok(Answered::Truth(base64_text::is_canonical(&bytes(heap, word)?)))
}
