// Buffers that are lent to a call: filled with a byte first, and looked at afterwards.
use crate::answer::Answered;
use cases::{Fault, number};
use std::alloc::Global;

const FILL: u8 = 0xa5;

#[derive(Drop)]
pub struct Lent {
    pub(crate) bytes: Vec<u8>,
}

impl Lent {
    pub(crate) fn new(heap: Global, room: usize) -> Result<Lent, Fault> {
        Ok(Lent {
            bytes: vec![in heap; FILL; room]?,
        })
    }

    // Of as many bytes as a word says.
    pub(crate) fn sized(heap: Global, word: &str) -> Result<Lent, Fault> {
        Lent::new(heap, number(word)? as usize)
    }

    // Whether it is as it was from a place on: one line, which the other case program that lends buffers has over a byte of its own.
    fn is_untouched(&self, from: usize) -> bool {
        self.bytes.iter().skip(from).all(|byte| *byte == FILL)
    }

    // The bytes that were written at its front, if the rest is as it was.
    pub(crate) fn front(mut self, count: usize) -> Answered {
        if !self.is_untouched(count) {
            return Answered::Touched;
        }
        self.bytes.truncate(count);
        Answered::Bytes(self.bytes)
    }

    // That answer, if all is as it was.
    pub(crate) fn unwritten(self, answer: Answered) -> Answered {
        if !self.is_untouched(0) {
            return Answered::Touched;
        }
        answer
    }
}
