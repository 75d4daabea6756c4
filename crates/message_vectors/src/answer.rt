// What a case gives.
use cases::Hex;
use kinds::{Kind, MessageRefusal};
use std::fmt;
use std::fmt::Display;

// The byte that lent buffers are filled with.
pub(crate) const FILL: u8 = 0xee;

#[derive(Drop)]
pub enum Answered {
    Message(Vec<u8>),
    Opened {
        kind: Kind,
        number: u16,
        payload: Vec<u8>,
    },
    Refused(MessageRefusal),
    // which part of a buffer was touched that must not be
    Touched(&'static str),
}

// Whether a buffer is as it was from a place on: one line, which the other case program that lends buffers has over a byte of its own.
pub(crate) fn untouched(buffer: &[u8], from: usize) -> bool {
    buffer.iter().skip(from).all(|&byte| byte == FILL)
}

impl fmt::Display for Answered {
    fn fmt<W: fmt::Write>(&self, f: &mut fmt::Formatter<W>) -> fmt::Result {
        match self {
            Answered::Message(message) => Hex(message).fmt(f),
            Answered::Opened {
                kind,
                number,
                payload,
            } => write!(f, "{:04x} {number} {}", kind.code(), Hex(payload)),
            Answered::Refused(refusal) => write!(f, "refused {}", refusal.number()),
            Answered::Touched(part) => f.write_str(part),
        }
    }
}
